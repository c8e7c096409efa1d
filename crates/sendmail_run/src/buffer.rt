ghost use Rattle.std.specs.Prelude.{◌≡◌, IfOk, length};

use std::alloc::{AllocError, Global};

/// So many bytes, each of them zero.
pub fn zeros(alloc: Global, size: usize) -> Result<Vec<u8>, AllocError>
    ensures { IfOk result (λ zeros. length zeros.items ≡ size) }
{
    vec![in alloc; 0u8; size]
}
