use std::alloc::AllocError;

/// What is wrong in an image. At one place the first of this list is told.
#[derive(Clone, Copy, Debug, PartialEq, Eq)]
pub enum CheckKind {
    /// A frame, an inner frame or a wait that the table of frames does not have there.
    Kind,
    /// A syntax node or a flow node that is not there or does not fit.
    Node,
    /// A place that the node of a frame does not have.
    At,
    /// A value of another sort, too many or too few of them, or names of the binding that do not rise.
    Values,
    /// A cell that is missing, or of another kind.
    MissingCell,
    /// Names of variables that are not those which the node sees.
    Name,
    /// A request that is missing, or not as such a request is.
    Request,
    /// An executor that is not held, or held twice.
    Executor,
    /// A thread whose number, parent or branches do not fit.
    Parent,
}

/// A fault and its place: the numbers of the thread and of the frame, counted from 0. Outside a frame, and from the
/// 4,294,967,295th on, `frame` is 4294967295; outside a thread `thread` is too.
#[derive(Clone, Copy, Debug, PartialEq, Eq)]
pub struct Finding {
    pub thread: u32,
    pub frame: u32,
    pub kind: CheckKind,
}

/// Why an image was refused.
#[derive(Clone, Copy, Debug, PartialEq, Eq)]
pub enum ImageRefusal {
    /// The memory was refused.
    Memory,
    /// The image is none of a sound build: its first fault.
    Fault(Finding),
}

impl From<AllocError> for ImageRefusal {
    ghost use Rattle.std.specs.Prelude.{◌≡◌};
    ghost use Rattle.image_check.specs.declared.finding.ImageRefusal.TheVariants.{Memory};

    ghost from_gives = { λ _ e. e ≡ Memory };

    fn from(_: AllocError) -> ImageRefusal {
        ImageRefusal::Memory
    }
}
