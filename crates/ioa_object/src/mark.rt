//! How objects begin, by which they differ from sources.

ghost use Rattle.std.specs.Prelude.{◌≡◌, ◌↔◌, ◌++◌, ℕ, List, IsTrue};
ghost use Rattle.ioa_object.specs.Spelling.{mark};

/// The bytes with which an object begins.
pub const MARK: [u8; 4] = [0x7F, 0x49, 0x4F, 0x41];

/// Whether the bytes begin as an object does.
pub fn is_marked(bytes: &[u8]) -> bool
    ensures { IsTrue result ↔ ((rest : List ℕ) × (bytes.now ≡ mark ++ rest)) }
{
    match bytes {
        [0x7F, 0x49, 0x4F, 0x41, ..] => true,
        _ => false,
    }
}
