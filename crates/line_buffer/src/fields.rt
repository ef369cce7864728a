//! The parts of a line: a label, and a value in its form.
ghost use Rattle.std.specs.Prelude.{◌≡◌, ℕ, ◌<◌, ◌≤◌, ◌+◌, ◌*◌, ◌^◌, ◌++◌, length};
ghost use Rattle.std.specs.Fmt.{decimal};
ghost use Rattle.line_buffer.specs.Fields.{eight_digits, sixteen_digits, byte_digits};

use crate::buffer::LineBuffer;
use itoa::Buffer;

impl LineBuffer {
    /// Adds a label and a word.
    pub fn word(&mut self, label: &str, word: &str)
        requires { length self.old + length label.now + length word.now ≤ 16384 }
        ensures { self.new ≡ self.old ++ label.now ++ word.now }
    {
        self.push(label.as_bytes());
        self.push(word.as_bytes());
    }

    /// Adds a label and a number, decimal: at most 20 digits.
    pub fn number(&mut self, label: &str, number: u64)
        requires { length self.old + length label.now + 20 ≤ 16384 }
        ensures text { self.new ≡ self.old ++ label.now ++ decimal number }
        ensures grown { length self.new ≤ length self.old + length label.now + 20 }
    {
        let mut buffer = Buffer::new();
        self.word(label, buffer.format(number));
    }

    /// Adds a label and bytes, two hexadecimal digits a byte.
    #[tactic(auto, unfolding(crate::specs::Fields::byte_digits))]
    pub fn digits(&mut self, label: &str, bytes: &[u8])
        requires { length self.old + length label.now + 2 * length bytes.now ≤ 16384 }
        ensures text { self.new ≡ self.old ++ label.now ++ byte_digits bytes.now }
        ensures grown { length self.new
            ≡ length self.old + length label.now + 2 * length bytes.now }
    {
        self.push(label.as_bytes());
        self.push_digits(bytes);
    }

    /// Adds a label and a number of 32 bits in 8 hexadecimal digits, the highest first.
    #[tactic(auto, unfolding(crate::specs::Fields::eight_digits))]
    pub fn eight_digits(&mut self, label: &str, number: u32)
        requires { length self.old + length label.now + 8 ≤ 16384 }
        ensures text { self.new ≡ self.old ++ label.now ++ eight_digits number }
        ensures grown { length self.new ≡ length self.old + length label.now + 8 }
    {
        self.digits(label, &number.to_be_bytes());
    }

    /// Adds a label and a number of 64 bits in 16 hexadecimal digits, the highest first.
    #[tactic(auto, unfolding(crate::specs::Fields::sixteen_digits))]
    pub fn sixteen_digits(&mut self, label: &str, wide: u64)
        requires { length self.old + length label.now + 16 ≤ 16384 }
        ensures text { self.new ≡ self.old ++ label.now ++ sixteen_digits wide }
        ensures grown { length self.new ≡ length self.old + length label.now + 16 }
    {
        self.digits(label, &wide.to_be_bytes());
    }
}
