ghost use Rattle.std.specs.Prelude.{◌≡◌};
ghost use Rattle.ruleset_run.specs.Books as spec;

use mail_base::Text;

/// Whether the name is one from `0` to `5`.
pub fn is_standard(name: &Text) -> bool
    ensures { result ≡ spec.is_standard name.now }
{
    match name.bytes() {
        [digit] => 48 <= *digit && *digit < 54,
        _ => false,
    }
}
