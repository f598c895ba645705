// A page: lent bytes that are filled from the front, and where they end, since there is no heap. They are put by hand:
// `write!` promises what stands there only where it answers `Ok`, and no contract says that it does, while the report is
// promised whole. That a text has room is of the text as much as of the page: it is asked of each call, and is no invariant.
ghost use Rattle.std.specs.Prelude.{◌++◌, [], ◌∷◌};
ghost use Rattle.rules.specs.Bytes.{decimal};
ghost use Rattle.rules.specs.Text.{field_line};
ghost use Rattle.rules.specs.Report.{number_line, ids_text};
ghost use Rattle.text.specs.Page.{Room, Put};

use itoa::Buffer;

#[derive(Drop)]
pub(crate) struct Page<'a> {
    pub(crate) bytes: &'a mut [u8],
    pub(crate) end: usize,
}

impl Page<'_> {
    // Puts a text behind what stands.
    pub(crate) fn put(&mut self, text: &[u8])
        requires { Room text.now self.old }
        ensures { Put text.now self.old self.new }
    {
        let end = self.end + text.len();
        self.bytes[self.end..end].copy_from_slice(text);
        self.end = end;
    }

    // Puts a byte.
    #[tactic(auto, using(crate::proofs::PutSteps::byte_put))]
    fn put_byte(&mut self, byte: u8)
        requires { Room (byte ∷ []) self.old }
        ensures { Put (byte ∷ []) self.old self.new }
    {
        self.bytes[self.end] = byte;
        self.end += 1;
    }

    // Puts a number's digits.
    #[tactic(auto, using(crate::proofs::PutSteps::printed_is))]
    fn put_number(&mut self, n: u64)
        requires { Room (decimal n) self.old }
        ensures { Put (decimal n) self.old self.new }
    {
        let mut digits = Buffer::new();
        self.put(digits.format(n).as_bytes());
    }

    // Puts a name and a number after it.
    pub(crate) fn put_named(&mut self, name: &[u8], n: u64)
        requires { Room (name.now ++ decimal n) self.old }
        ensures { Put (name.now ++ decimal n) self.old self.new }
    {
        self.put(name);
        self.put_number(n);
    }

    // Puts a line: a name and a number.
    pub(crate) fn put_line(&mut self, name: &[u8], n: u64)
        requires { Room (number_line name.now n) self.old }
        ensures { Put (number_line name.now n) self.old self.new }
    {
        self.put_named(name, n);
        self.put_byte(b'\n');
    }

    // Puts ids with a comma between each and the next.
    fn put_ids(&mut self, ids: &[u64])
        requires { Room (ids_text ids.now) self.old }
        ensures { Put (ids_text ids.now) self.old self.new }
    {
        let Some((first, others)) = ids.split_first() else {
            return;
        };
        self.put_number(*first);
        for &id in others {
            self.put_named(b",", id);
        }
    }

    // Puts a line: a name and ids.
    pub(crate) fn put_ids_line(&mut self, name: &[u8], ids: &[u64])
        requires { Room (field_line name.now (ids_text ids.now)) self.old }
        ensures { Put (field_line name.now (ids_text ids.now)) self.old self.new }
    {
        self.put(name);
        self.put_ids(ids);
        self.put_byte(b'\n');
    }
}
