// Reading a file from front to back: counts, and sections of entries that follow each other.
ghost use Rattle.std.specs.Prelude.{◌≡◌, ◌+◌, ◌*◌, ◌^◌, ◌<◌, ◌≤◌, true, length, is_ok, IfOk, OnOk, Ok};
ghost use Rattle.script_file.specs.Reading.{chunk_at, count_at, end_at, entries, mapped, section};
ghost use Rattle.script_file.specs.Steps.{tested};

use crate::entry::Entry;
use crate::fault::FileFault;

// How large a count may be.
#[derive(Clone, Copy)]
pub(crate) struct Limits {
    pub(crate) least: u16,
    pub(crate) most: u16,
}

// The bytes of a file, and the offset at which the next part begins. After a refusal nothing more is read.
#[derive(Drop)]
pub(crate) struct Reader<'a> {
    bytes: &'a [u8],
    at: u16,
}

impl<'a> Reader<'a> {
    ghost use Rattle.script_file.specs.Steps.{Moves};

    // Reading begins at the front.
    pub(crate) fn new(bytes: &'a [u8]) -> Reader<'a>
        ensures bytes { result.bytes.now ≡ bytes.now }
        ensures at { result.at ≡ 0 }
    {
        Reader { bytes, at: 0 }
    }

    // Where the next part begins.
    pub(crate) fn at(&self) -> u16
        ensures { result ≡ self.now.at }
    {
        self.at
    }

    // Passes over so many bytes.
    pub(crate) fn skip(&mut self, n: u16)
        requires { self.old.at + n < 2 ^ 16 }
        ensures { Moves self.old self.new n }
    {
        self.at += n;
    }

    // The next N bytes.
    pub(crate) fn chunk<const N: usize>(&mut self) -> Result<[u8; N], FileFault>
        requires { self.old.at + N < 2 ^ 16 }
        ensures value { result ≡ chunk_at self.old.bytes.now self.old.at N }
        ensures moved { OnOk result (Moves self.old self.new N) }
    {
        let cut = FileFault::Cut(self.at);
        let rest = self.bytes.get(self.at as usize..).ok_or(cut)?;
        let chunk = rest.first_chunk::<N>().ok_or(cut)?;
        self.at += N as u16;
        Ok(*chunk)
    }

    // A count of two bytes, within its limits.
    pub(crate) fn count(&mut self, limits: Limits) -> Result<u16, FileFault>
        requires { self.old.at + 2 < 2 ^ 16 }
        ensures value { result ≡ count_at self.old.bytes.now self.old.at limits.least limits.most }
        ensures limits { IfOk result (λ n. n ≤ limits.most) }
        ensures moved { OnOk result (Moves self.old self.new 2) }
    {
        let at = self.at;
        let n = u16::from_le_bytes(self.chunk()?);
        if !(limits.least..=limits.most).contains(&n) {
            return Err(FileFault::Count(at));
        }
        Ok(n)
    }

    // Tests that so many entries follow each other.
    fn test<E: Entry>(&mut self, n: u16) -> Result<(), FileFault>
        requires { self.old.at + n * E.width < 2 ^ 16 }
        ensures value { result ≡ tested (entries (E.found self.old.bytes.now) E.width self.old.at n) }
        ensures moved { OnOk result (Moves self.old self.new (n * E.width)) }
    {
        for _ in 0..n {
            E::read(self)?;
        }
        Ok(())
    }

    // Tests a section: entries behind their count. Answers the count.
    pub(crate) fn section<E: Entry>(&mut self, limits: Limits) -> Result<u16, FileFault>
        requires { self.old.at + 2 + limits.most * E.width < 2 ^ 16 }
        ensures value { result ≡ mapped length (section self.old.bytes.now E.found E.width self.old.at limits.least limits.most) }
        ensures limits { IfOk result (λ n. n ≤ limits.most) }
        ensures moved { IfOk result (λ n. Moves self.old self.new (2 + n * E.width)) }
    {
        let n = self.count(limits)?;
        self.test::<E>(n)?;
        Ok(n)
    }

    // Writes the next entries over a table; they have been tested.
    pub(crate) fn fill<E: Entry>(&mut self, table: &mut [E])
        requires short { self.old.at + length table.old * E.width < 2 ^ 16 }
        requires right { is_ok (entries (E.found self.old.bytes.now) E.width self.old.at (length table.old)) ≡ true }
        ensures written { entries (E.found self.old.bytes.now) E.width self.old.at (length table.old) ≡ Ok table.new }
        ensures moved { Moves self.old self.new (length table.old * E.width) }
    {
        for place in table.iter_mut() {
            let Ok(entry) = E::read(self) else {
                unreachable()
            };
            *place = entry;
        }
    }

    // Tests that nothing follows.
    pub(crate) fn end(&self) -> Result<(), FileFault>
        ensures { result ≡ end_at self.now.bytes.now self.now.at }
    {
        if (self.at as usize) < self.bytes.len() {
            return Err(FileFault::Trailing(self.at));
        }
        Ok(())
    }
}
