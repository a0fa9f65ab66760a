ghost use Rattle.std.specs.Prelude.{◌≡◌};
ghost use Rattle.std.specs.Ordering.{nat_cmp};
ghost use Rattle.certificate.specs.Building.{said_above, said_content, word_claim, word_claims};
ghost use Rattle.certificate.specs.Contents.{claim_order, comes_behind};
ghost use Rattle.certificate.specs.Text.{admits, below};

use crate::claim::{ClaimLine, Content};

/// What a line stands below: the last block, the last loop of it, and the last claim of that, or of the block itself.
#[derive(Clone, Copy)]
pub(crate) struct Above<'a> {
    pub(crate) block: Option<u32>,
    pub(crate) loop_number: Option<u32>,
    pub(crate) claim: Option<ClaimLine<'a>>,
}

impl<'a> Above<'a> {
    /// Whether a line that says this may stand here.
    pub(crate) fn admits(&self, content: &Content<'_>) -> bool
        ensures { result ≡ admits (said_above self.now) (said_content content.now) }
    {
        match content {
            Content::Block(number) => is_behind(self.block, *number),
            Content::Loop(number) => self.block.is_some() && is_behind(self.loop_number, *number),
            Content::Claimed(claim) => {
                self.block.is_some()
                    && claim.may_stand(self.loop_number.is_some())
                    && self.is_claim_behind(claim)
            }
        }
    }

    /// Whether the claim comes behind the last one.
    fn is_claim_behind(&self, claim: &ClaimLine<'_>) -> bool
        ensures { result ≡ comes_behind claim_order (word_claims self.now.claim) (word_claim claim.now) }
    {
        match &self.claim {
            None => true,
            Some(last) => last.compare(claim).is_lt(),
        }
    }

    /// What the line stands below that follows a line which says this.
    pub(crate) fn below(&self, content: &Content<'a>) -> Above<'a>
        ensures { said_above result ≡ below (said_above self.now) (said_content content.now) }
    {
        match content {
            Content::Block(number) => Above {
                block: Some(*number),
                loop_number: None,
                claim: None,
            },
            Content::Loop(number) => Above {
                block: self.block,
                loop_number: Some(*number),
                claim: None,
            },
            Content::Claimed(claim) => Above {
                block: self.block,
                loop_number: self.loop_number,
                claim: Some(*claim),
            },
        }
    }
}

/// Whether the number is greater than the last one.
fn is_behind(last: Option<u32>, number: u32) -> bool
    ensures { result ≡ comes_behind nat_cmp last number }
{
    last.is_none_or(|last| last < number)
}
