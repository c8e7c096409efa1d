use mail_base::Text;

/// A file with its bytes.
#[derive(Drop)]
pub struct Named {
    pub name: Text,
    pub bytes: Text,
}
