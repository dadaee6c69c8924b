// The items of a body of names or of strings, one after another.
ghost use Rattle.std.specs.Prelude.{◌≡◌, ◌+◌, ◌<◌, min, length, slice_get, slice_index};
ghost use Rattle.std.specs.Iterator.{YieldsFirstRef, item_count};
ghost use Rattle.layout.specs.Items.{split, text_at};
ghost use Rattle.layout.specs.Readers.{Stepped, Shows, pending};

use nodes::bytes::tail;

/// How many items of a body are looked at: one more than there may be.
const MOST: u16 = 256;

/// The items that are still to come: the rest of the body, and how many more are looked at.
#[derive(Clone, Copy)]
pub struct Items<'a> {
    rest: &'a [u8],
    left: u16,
}

impl<'a> Items<'a> {
    /// The items of a body, from the first on.
    #[tactic(auto, unfolding(crate::specs::Items::split))]
    pub(crate) fn of(body: &'a [u8]) -> Items<'a>
        ensures { pending result ≡ split body.now }
    {
        Items {
            rest: body,
            left: MOST,
        }
    }

    /// The next item, with its length byte. It says more than `next`: no item is empty.
    pub fn next_item(&mut self) -> Option<&'a [u8]>
        ensures { Stepped result (pending self.old) (pending self.new) }
    {
        self.next()
    }

    /// How many items are to come.
    #[tactic(auto, using(crate::proofs::Splitting::items_few))]
    pub fn count(self) -> u32
        ensures { result ≡ length (pending self.entry) }
    {
        Iterator::count(self) as u32
    }

    // The item that comes after `k` others.
    fn item(mut self, k: u32) -> Option<&'a [u8]>
        ensures { Shows result (slice_get (pending self.entry) k) }
    {
        self.nth(k as usize)
    }

    /// The text of the item that comes after `k` others: its bytes without the length byte.
    pub fn text(self, k: u32) -> Option<&'a [u8]>
        ensures { Shows result (text_at (pending self.entry) k) }
    {
        Some(tail(self.item(k)?))
    }
}

impl<'a> Iterator for Items<'a> {
    type Item = &'a [u8];

    ghost next_gives = { YieldsFirstRef pending };

    ghost remaining = { item_count pending };

    #[tactic(auto, using(crate::proofs::Splitting::items_end, crate::proofs::Splitting::items_next))]
    fn next(&mut self) -> Option<&'a [u8]> {
        if self.left == 0 || self.rest.is_empty() {
            return None;
        }
        let end = item_end(self.rest);
        let (item, rest) = self.rest.split_at(end);
        self.rest = rest;
        self.left -= 1;
        Some(item)
    }
}

// Where the first item of a row ends: after as many bytes as its length byte says, or with the row.
fn item_end(rest: &[u8]) -> usize
    requires { 0 < length rest.now }
    ensures { result ≡ min (length rest.now) (slice_index rest.now 0 + 1) }
{
    rest.len().min(rest[0] as usize + 1)
}
