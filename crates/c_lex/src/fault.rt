//! What stands in the way of a piece.

ghost use Rattle.std.specs.Prelude.{◌≡◌, length};
ghost use Rattle.c_lex.specs.declared.fault.PieceError.TheVariants.{NoMemory};

use cm_base::NoMemory as OutOfMemory;

/// A fault, and how many bytes of the text are left where it stands.
#[derive(Clone, Copy)]
pub struct Fault {
    pub code: u8,
    pub left: usize,
}

#[derive(Drop)]
pub enum PieceError {
    NoMemory,
    At(Fault),
}

impl From<OutOfMemory> for PieceError {
    ghost from_gives = { λ _ e. e ≡ NoMemory };

    fn from(_e: OutOfMemory) -> PieceError {
        PieceError::NoMemory
    }
}

/// Why no character and no escape stands somewhere in a literal.
#[derive(Clone, Copy)]
pub enum Flaw {
    /// The text ends there, or inside an escape that would go on.
    Cut,
    Bad,
}

/// The fault with this code where `text` begins.
pub fn fault_at(code: u8, text: &[u8]) -> PieceError
    ensures { result ≡ PieceError.At (record { code = code; left = length text.now }) }
{
    PieceError::At(Fault {
        code,
        left: text.len(),
    })
}
