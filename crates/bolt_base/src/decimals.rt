// Numbers printed into a text.
ghost use Rattle.std.specs.Prelude.{◌≡◌, ◌++◌, decimal, OnOk, OnErr};
ghost use Rattle.std.specs.Fmt.{signed_decimal};

use crate::items::Items;
use crate::memory::Memory;
use itoa::Buffer;

impl Items<u8> {
    /// Appends the decimal digits of a number. Nothing changes after `Memory`.
    pub fn push_decimal(&mut self, number: u64) -> Result<(), Memory>
        ensures ok { OnOk result (self.new ≡ self.old ++ decimal number) }
        ensures err { OnErr result (self.new ≡ self.old) }
    {
        let mut buffer = Buffer::new();
        self.extend_from_slice(buffer.format(number).as_bytes())
    }

    /// Appends the decimal digits of a number, behind a `-` where it is negative. Nothing changes
    /// after `Memory`.
    pub fn push_signed(&mut self, number: i64) -> Result<(), Memory>
        ensures ok { OnOk result (self.new ≡ self.old ++ signed_decimal number) }
        ensures err { OnErr result (self.new ≡ self.old) }
    {
        let mut buffer = Buffer::new();
        let digits = buffer.format(number);
        self.extend_from_slice(digits.as_bytes())
    }
}
