// The output: bytes one after another, as far as there is room.
ghost use Rattle.std.specs.Prelude.{◌≡◌, Ok, Err, ◌+◌, ◌≤◌, ◌^◌, length, Some, None, cond, nat_lt};
ghost use Rattle.scripts.specs.Pages.{joined_parts, laid, if_fits, Put};
ghost use Rattle.scripts.specs.declared.bad.Bad.TheVariants.{Output};

use crate::bad::Bad;

#[derive(Drop)]
pub struct Page<'a> {
    bytes: &'a mut [u8],
    next: usize,
}

impl<'a> Page<'a> {
    pub fn new(bytes: &'a mut [u8]) -> Page<'a>
        ensures same { result.bytes.ghost_name ≡ bytes.entry.ghost_name }
        ensures bytes { result.bytes.now ≡ bytes.old }
        ensures next { result.next ≡ 0 }
    {
        Page { bytes, next: 0 }
    }

    pub fn written(&self) -> usize
        ensures { result ≡ self.now.next }
    {
        self.next
    }

    // The output again.
    pub fn give_back(self) -> &'a mut [u8]
        ensures home { result.ghost_name ≡ self.entry.bytes.ghost_name }
        ensures bytes { result.now ≡ self.entry.bytes.now }
    {
        let Page { bytes, .. } = self;
        bytes
    }

    // Whether so many bytes more fit.
    pub fn has_room(&self, length: usize) -> Result<(), Bad>
        ensures { result ≡ if_fits self.now length (Ok tt) (Err Output) }
    {
        let end = self.next.checked_add(length).ok_or(Bad::Output)?;
        if end > self.bytes.len() {
            return Err(Bad::Output);
        }
        Ok(())
    }

    // Where parts end that are put one behind the other.
    fn end_of(&self, parts: &[&[u8]]) -> Option<usize>
        ensures { result ≡ cond (nat_lt (self.now.next + length (joined_parts parts.now)) (2 ^ 64)) (Some (self.now.next + length (joined_parts parts.now))) None }
    {
        let mut end = self.next;
        for part in parts {
            end = end.checked_add(part.len())?;
        }
        Some(end)
    }

    // Puts a part that fits.
    pub(crate) fn put_one(&mut self, part: &[u8])
        requires { self.old.next + length part.now ≤ length self.old.bytes.now }
        ensures same { self.new.bytes.ghost_name ≡ self.old.bytes.ghost_name }
        ensures bytes { self.new.bytes.now ≡ laid self.old.next part.now self.old.bytes.now }
        ensures next { self.new.next ≡ self.old.next + length part.now }
    {
        let end = self.next + part.len();
        self.bytes[self.next..end].copy_from_slice(part);
        self.next = end;
    }

    // Puts parts that fit.
    pub(crate) fn put_each(&mut self, parts: &[&[u8]])
        requires { self.old.next + length (joined_parts parts.now) ≤ length self.old.bytes.now }
        ensures same { self.new.bytes.ghost_name ≡ self.old.bytes.ghost_name }
        ensures bytes { self.new.bytes.now ≡ laid self.old.next (joined_parts parts.now) self.old.bytes.now }
        ensures next { self.new.next ≡ self.old.next + length (joined_parts parts.now) }
    {
        for part in parts {
            self.put_one(part);
        }
    }

    // Puts the parts one behind the other, or nothing where not all of them fit.
    pub fn put(&mut self, parts: &[&[u8]]) -> Result<(), Bad>
        ensures same { self.new.bytes.ghost_name ≡ self.old.bytes.ghost_name }
        ensures put { Put self.old (joined_parts parts.now) result self.new }
    {
        let end = self.end_of(parts).ok_or(Bad::Output)?;
        if end > self.bytes.len() {
            return Err(Bad::Output);
        }
        self.put_each(parts);
        Ok(())
    }
}
