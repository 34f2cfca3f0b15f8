// What refuses a call on n entries before anything is sent: the lent slices.
ghost use Rattle.std.specs.Prelude.{◌≡◌, length};
ghost use Rattle.refusal.specs.declared.Refusal.TheVariants.{RowsTooShort, BadReplies};
ghost use Rattle.track.specs.Answers.{refused_where};
ghost use Rattle.track.specs.Updates.{above_one, replies_bad_in};
ghost use Rattle.track.specs.Calls.{short_in};

use crate::rows::Rows;
use refusal::Refusal;

impl<'a> Rows<'a> {
    // 3: one of the three slices is shorter than n entries.
    pub fn check(&self, n: usize) -> Result<(), Refusal>
        ensures { result ≡ refused_where (short_in n (length self.now.kinds.now) (length self.now.amounts.now) (length self.now.places.now)) RowsTooShort }
    {
        if self.kinds.len() < n || self.amounts.len() < n || self.places.len() < n {
            return Err(Refusal::RowsTooShort);
        }
        Ok(())
    }
}

// 4: there are fewer replies than n, or one of those is above 1.
pub fn check_replies(replies: &[u8], n: usize) -> Result<(), Refusal>
    ensures { result ≡ refused_where (replies_bad_in n replies.now) BadReplies }
{
    let bad = replies.len() < n || above_one(&replies[..n]);
    if bad {
        return Err(Refusal::BadReplies);
    }
    Ok(())
}

// Whether one of the replies is above 1. A fold, which looks at many at once: `any` would end at the first, and looks at one by one.
fn above_one(replies: &[u8]) -> bool
    ensures { result ≡ above_one replies.now }
{
    replies.iter().fold(false, |bad, reply| bad | (*reply > 1))
}
