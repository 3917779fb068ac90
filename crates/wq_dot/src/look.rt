//! How a flush is drawn, as in "The command `dot`" in docs/FORMAT.md.

ghost use Rattle.std.specs.Prelude.{◌≡◌};

/// How the arrow of a flush looks.
#[derive(Clone, Copy, Debug, PartialEq, Eq)]
pub enum FlushLook {
    /// Without a mark: black and thin.
    Plain,
    /// The flush lies on a circle, or leads to a workqueue without a rescuer.
    Red,
    /// The flush is red, and a shortest run that ends stuck waits in it.
    BoldRed,
    /// The flush is on the chain of a plan.
    Bold,
}

impl FlushLook {
    ghost use Rattle.wq_dot.specs.Flushes.{is_bold_red, is_marked};

    /// Whether the look isn't plain.
    pub(crate) fn is_marked(self) -> bool
        ensures { result ≡ is_marked self }
    {
        match self {
            FlushLook::Plain => false,
            FlushLook::Red | FlushLook::BoldRed | FlushLook::Bold => true,
        }
    }

    /// Whether the look is both bold and red.
    pub(crate) fn is_bold_red(self) -> bool
        ensures { result ≡ is_bold_red self }
    {
        match self {
            FlushLook::BoldRed => true,
            FlushLook::Plain | FlushLook::Red | FlushLook::Bold => false,
        }
    }
}
