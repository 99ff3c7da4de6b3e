// The items of a tape: calls on the bench, and remarks.
ghost use Rattle.std.specs.Prelude.{◌≡◌, ◌≤◌, length};
ghost use Rattle.tape.specs.Items.{printable, printable_front, remark_length, told_item, remark_of, remark_at, fields_at, item_at};

use crate::fault::ItemFault;
use crate::kind::ItemKind;
use crate::reader::Reader;

// The most bytes that a remark may have.
const MOST_REMARK: u32 = 80;

// An item, as it stands on a tape. The bytes of a remark are a part of that tape.
#[derive(Clone, Copy, PartialEq, Eq, Debug)]
pub enum Item<'a> {
    Start { job: u32 },
    Read { job: u32, word: u32 },
    Write { job: u32, word: u32, value: u32 },
    Seal { job: u32 },
    Put { job: u32 },
    Quit { job: u32 },
    Look { job: u32 },
    // Bytes and no `&str`: an item to be listed may be made of any bytes.
    Remark(&'a [u8]),
}

// Whether a byte may stand in a remark.
fn is_printable(b: u8) -> bool
    ensures { result ≡ printable b }
{
    (b' '..=b'~').contains(&b)
}

// Whether a remark may have such a length.
fn is_remark_length(len: u32) -> bool
    ensures { result ≡ remark_length len }
{
    (1..=MOST_REMARK).contains(&len)
}

// How many bytes at the front may all stand in a remark. (By `position`, two goals of `remark_of` stayed open.)
fn count_printable(bytes: &[u8]) -> usize
    ensures value { result ≡ printable_front bytes.now }
    ensures within { result ≤ length bytes.now }
{
    bytes.iter().take_while(|b| is_printable(**b)).count()
}

impl<'a> Reader<'a> {
    // Takes the remark of `len` bytes that stands here; `place` is where the length stands.
    fn remark_of(&mut self, place: usize, len: u32) -> Result<Item<'a>, ItemFault>
        ensures { told_item result self.new ≡ remark_of place len self.old }
    {
        if !is_remark_length(len) {
            return Err(ItemFault::Length { place });
        }
        let len = len as usize;
        let first = self.place();
        let left = self.rest.len();
        if left < len {
            return Err(ItemFault::Cut {
                place: first + left,
            });
        }
        let bytes = self.next_bytes(len);
        let good = count_printable(bytes);
        if good < len {
            return Err(ItemFault::Byte {
                place: first + good,
            });
        }
        Ok(Item::Remark(bytes))
    }

    // Takes the remark whose length stands here.
    #[tactic(auto, unfolding(crate::specs::Items::remark_at))]
    fn next_remark(&mut self) -> Result<Item<'a>, ItemFault>
        ensures { told_item result self.new ≡ remark_at self.old }
    {
        let place = self.place();
        let len = self.next_number()?;
        self.remark_of(place, len)
    }

    // Takes the item of a kind whose fields stand here: a `match`, since each kind has fields of its own.
    fn next_fields(&mut self, kind: ItemKind) -> Result<Item<'a>, ItemFault>
        ensures { told_item result self.new ≡ fields_at kind self.old }
    {
        Ok(match kind {
            ItemKind::Start => Item::Start {
                job: self.next_number()?,
            },
            ItemKind::Read => Item::Read {
                job: self.next_number()?,
                word: self.next_number()?,
            },
            ItemKind::Write => Item::Write {
                job: self.next_number()?,
                word: self.next_number()?,
                value: self.next_number()?,
            },
            ItemKind::Seal => Item::Seal {
                job: self.next_number()?,
            },
            ItemKind::Put => Item::Put {
                job: self.next_number()?,
            },
            ItemKind::Quit => Item::Quit {
                job: self.next_number()?,
            },
            ItemKind::Look => Item::Look {
                job: self.next_number()?,
            },
            ItemKind::Remark => self.next_remark()?,
        })
    }

    // Takes the item that stands here.
    #[tactic(auto, using(crate::proofs::Codes::item_none, crate::proofs::Codes::item_some), unfolding(crate::specs::Items::item_at))]
    pub(crate) fn next_item(&mut self) -> Result<Item<'a>, ItemFault>
        ensures { told_item result self.new ≡ item_at self.old }
    {
        let place = self.place();
        match self.rest {
            [] => Err(ItemFault::Cut { place }),
            [code, fields @ ..] => {
                let kind = ItemKind::try_from(*code).map_err(|_| ItemFault::Code { place })?;
                self.rest = fields;
                self.next_fields(kind)
            }
        }
    }
}
