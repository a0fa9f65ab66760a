ghost use Rattle.std.specs.Prelude.{◌≡◌};
ghost use Rattle.pcode_assembler.specs.Reading.{IsSmall};
ghost use Rattle.pcode_assembler.specs.Text.{below};

use crate::content::Content;

/// What a line stands below: how many sites, points and instructions, and the part of the text of the last line.
#[derive(Clone, Copy)]
pub(crate) struct Above {
    pub(crate) sites: u32,
    pub(crate) points: u32,
    pub(crate) instructions: u32,
    pub(crate) part: u8,
}

impl Above {
    /// What the line stands below that follows a line which says this.
    pub(crate) fn below(&self, content: &Content) -> Above
        requires { IsSmall self.now }
        ensures { result ≡ below self.now content.now }
    {
        let mut below = *self;
        below.part = content.part();
        match content {
            Content::Site { .. } => below.sites += 1,
            Content::Point { .. } => below.points += 1,
            Content::Label { .. } => {}
            Content::Instruction(_) => below.instructions += 1,
        }
        below
    }
}
