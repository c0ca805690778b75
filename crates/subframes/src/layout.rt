//! Where a field stands in a subframe, and the number that it has there.

ghost use Rattle.std.specs.Prelude.{◌≡◌, ◌+◌, ◌-◌, ◌/◌, ◌^◌, ◌<◌, ◌≤◌, IsTrue, is_some, sum_by};
ghost use Rattle.definitions.specs.Fields.{value_of, is_there, word_at_place};
ghost use Rattle.subframes.specs.Layouts.{bits_in, parts_in, layout_in, size_of};
ghost use Rattle.subframes.specs.Layouts.{is_in_one_word, is_readable};
ghost use Rattle.subframes.specs.Layouts.{number_of_bits, number_of_parts};

use frame_sync::Subframe;

/// The bits of a word that are data; the parity follows them.
const DATA_WIDTH: usize = 24;

/// Bits first to last of a subframe, counted from 1, parity places included (IS-GPS-200, figure
/// 20-1).
#[derive(Clone, Copy)]
pub(crate) struct Bits {
    pub(crate) first: usize,
    pub(crate) last: usize,
}

/// A line of a table: the field's name, its one or two parts, the first one's bits being the
/// highest, whether it is in two's complement, and its scale factor's power of two.
#[derive(Clone, Copy)]
pub(crate) struct Layout {
    pub(crate) name: &'static str,
    pub(crate) head: Bits,
    pub(crate) tail: Option<Bits>,
    pub(crate) is_signed: bool,
    pub(crate) exponent: i8,
}

impl Bits {
    /// The number of bits.
    fn len(self) -> usize
        requires { IsTrue (is_in_one_word (bits_in self)) }
        ensures { result ≡ size_of (bits_in self) }
    {
        self.last + 1 - self.first
    }

    /// The number, from 1, of the word that holds the bits.
    fn word(self) -> usize
        requires { IsTrue (is_in_one_word (bits_in self)) }
        ensures from_one { 1 ≤ result }
        ensures to_ten { result ≤ 10 }
        ensures word { result ≡ (self.first - 1) / 30 + 1 }
    {
        (self.first - 1) / 30 + 1
    }

    /// Whether the word that holds the bits is present.
    fn is_there(self, subframe: &Subframe) -> bool
        requires { IsTrue (is_in_one_word (bits_in self)) }
        ensures { result ≡ is_some (word_at_place subframe.now self.first) }
    {
        subframe.word(self.word()).is_some()
    }

    /// The number that the bits write, the first of them highest; 0 where their word is missing.
    pub(crate) fn number(self, subframe: &Subframe) -> u64
        requires { IsTrue (is_in_one_word (bits_in self)) }
        ensures number { result ≡ number_of_bits subframe.now (bits_in self) }
        ensures in_range { result < 2 ^ size_of (bits_in self) }
    {
        let word = u64::from(subframe.word(self.word()).unwrap_or(0));
        let behind = DATA_WIDTH - 1 - (self.last - 1) % 30;
        (word >> behind) & ((1 << self.len()) - 1)
    }
}

impl Layout {
    /// Whether no word that holds a part is missing.
    pub(crate) fn is_there(&self, subframe: &Subframe) -> bool
        requires { IsTrue (is_readable (layout_in self.now)) }
        ensures { result ≡ is_there subframe.now (layout_in self.now) }
    {
        let head = self.head.is_there(subframe);
        match self.tail {
            None => head,
            Some(tail) => head && tail.is_there(subframe),
        }
    }

    /// The number that the field has in a subframe, missing words read as 0.
    pub(crate) fn value(&self, subframe: &Subframe) -> i64
        requires { IsTrue (is_readable (layout_in self.now)) }
        ensures { result ≡ value_of subframe.now (layout_in self.now) }
    {
        let number = self.number(subframe);
        let len = self.len();
        if self.is_signed && number >> (len - 1) == 1 {
            number as i64 - (1 << len)
        } else {
            number as i64
        }
    }

    /// The number that the bits of the parts write, joined in their order.
    fn number(&self, subframe: &Subframe) -> u64
        requires { IsTrue (is_readable (layout_in self.now)) }
        ensures number { result ≡ number_of_parts subframe.now (layout_in self.now) }
        ensures in_range { result < 2 ^ sum_by size_of (parts_in self.now.head self.now.tail) }
    {
        let head = self.head.number(subframe);
        match self.tail {
            None => head,
            Some(tail) => (head << tail.len()) | tail.number(subframe),
        }
    }

    /// The number of bits of the field.
    fn len(&self) -> usize
        requires { IsTrue (is_readable (layout_in self.now)) }
        ensures len { result ≡ sum_by size_of (parts_in self.now.head self.now.tail) }
        ensures from_one { 1 ≤ result }
        ensures to_32 { result ≤ 32 }
    {
        match self.tail {
            None => self.head.len(),
            Some(tail) => self.head.len() + tail.len(),
        }
    }
}
