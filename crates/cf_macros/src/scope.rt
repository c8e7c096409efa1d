/// What a text is expanded for.
#[derive(Clone, Copy)]
pub(crate) enum Scope {
    /// Outside rules: `$$` is a dollar sign, and `$&x` is read as `$x`.
    Outside,
    /// A side of a rule: `$$` and `$&x` stay as they are written.
    Rule,
}
