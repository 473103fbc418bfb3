//! What is around a statement.

ghost use Rattle.std.specs.Prelude.{◌≡◌};
ghost use Rattle.c_body.specs.Within as spec;

use c_check::Around;
use c_scope::{Tables, close_block, open_block};

/// What is around a statement: the innermost scope, whether a loop is, so that `continue` may stand there, and whether a
/// `switch` is, so that `break` may.
#[derive(Clone, Copy, Debug, PartialEq, Eq)]
pub struct Within {
    pub around: Around,
    pub in_loop: bool,
    pub in_switch: bool,
}

impl Within {
    /// In a function's body, outside of its loops.
    pub fn outermost(around: Around) -> Within
        ensures { result ≡ spec.outermost around }
    {
        Within {
            around,
            in_loop: false,
            in_switch: false,
        }
    }

    /// In the body of a loop.
    pub fn looping(self) -> Within
        ensures { result ≡ spec.looping self }
    {
        Within {
            in_loop: true,
            ..self
        }
    }

    /// Between the braces of a `switch`.
    pub fn switching(self) -> Within
        ensures { result ≡ spec.switching self }
    {
        Within {
            in_switch: true,
            ..self
        }
    }

    /// In the scope of a block that begins here.
    #[tactic(auto, unfolding(crate::specs::Within::opened))]
    pub fn opened(self, tables: &Tables) -> Within
        ensures { result ≡ spec.opened self tables.now }
    {
        let around = Around {
            scope: open_block(tables),
            in_entry: self.around.in_entry,
        };
        Within { around, ..self }
    }

    /// The end of the block whose scope this is.
    #[tactic(auto, unfolding(crate::specs::Within::closed))]
    pub fn close(self, tables: &mut Tables)
        ensures { tables.new ≡ spec.closed self tables.old }
    {
        close_block(tables, self.around.scope);
    }
}
