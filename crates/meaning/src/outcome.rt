use text_input::InputFault;

/// How a run ends.
#[derive(Clone, Copy)]
pub enum Ending {
    Finished,
    /// An error at the site with this id.
    Error(u32),
    /// The input is at fault for the point with this id.
    Input { point: u32, fault: InputFault },
    /// No turns are left.
    More,
}

/// What a run has written, and how it ends.
#[derive(Drop)]
pub struct Outcome {
    pub output: Vec<u8>,
    pub ending: Ending,
}
