// The stack of what is owed. It is a type of its own, so that what drops it here is proved once for the parts of the parser.
ghost use Rattle.std.specs.Prelude.{◌≡◌, [], ◌∷◌, OnOk, OnErr, IfSome, IfNone, List};

use crate::states::state::Frame;
use pat_sequences::Stack;
use std::alloc::{AllocError, Global};
use std::marker::Model;

/// The frames, the innermost on top.
pub struct Frames {
    stack: Stack<Frame>,
}

impl Drop for Frames {
    fn drop(self) {
        let Frames { stack: _ } = self;
    }
}

impl Model for Frames {
    ghost use Rattle.std.specs.Prelude.{List};
    ghost use Rattle.pat_parser.specs.declared.states.state.Frame.{Frame};
    ghost use Rattle.std.specs.Coded.{codes};
    ghost use Rattle.pat_tree.specs.contracts.pattern.TreePattern as the_pattern;
    ghost use Rattle.pat_tree.specs.contracts.expression.TreeExpr as the_expression;
    ghost use Rattle.pat_tree.specs.contracts.term.Term as the_term;
    ghost use Rattle.pat_tree.specs.contracts.term.TreeClause as the_clause;

    ghost Value = { List Frame };

    ghost coded = { Prim.hlevel (codes, the_pattern.the_row.coded, the_expression.the_row.coded, the_term.the_row.coded, the_clause.the_row.coded) };

    ghost view = { λ s. s.stack };
}

impl Frames {
    /// No frame. It takes no memory.
    pub fn new(alloc: Global) -> Frames
        ensures { result ≡ [] }
    {
        Frames {
            stack: Stack::new(alloc),
        }
    }

    /// Puts a frame on top. An error leaves the frames as they were.
    pub fn push(&mut self, frame: Frame) -> Result<(), AllocError>
        ensures ok { OnOk result (self.new ≡ frame ∷ self.old) }
        ensures err { OnErr result (self.new ≡ self.old) }
    {
        self.stack.push(frame)
    }

    /// Takes the top frame off.
    pub fn pop(&mut self) -> Option<Frame>
        ensures some { IfSome result (λ x. self.old ≡ x ∷ self.new) }
        ensures none { IfNone result ((self.old ≡ []) × (self.new ≡ [])) }
    {
        self.stack.pop()
    }

    /// The frame on top.
    pub fn top(&self) -> Option<&Frame>
        ensures some { IfSome result (λ x. (rest : List Frame) × (self.now ≡ x.now ∷ rest)) }
        ensures none { IfNone result (self.now ≡ []) }
    {
        self.stack.top()
    }
}
