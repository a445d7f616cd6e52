// Attributes.
ghost use Rattle.std.specs.Prelude.{◌*◌};
ghost use Rattle.serial_spec.specs.HeaderFaults.{AttrType, AttrCount};
ghost use Rattle.cdf_header.specs.Reading.{Gives, field_at, block_at, attr_at, attrs_at};

use crate::entries::Entry;
use crate::header_bytes::HeaderBytes;
use crate::section::Section;
use crate::stop::Stop;
use crate::type_numbers::{kind_of, type_size};
use nc_base::{Attr, AttrList, Blob, HeaderErr};
use std::alloc::Global;

impl HeaderBytes<'_> {
    /// The number of an attribute's type.
    pub(crate) fn attr_type(&self, at: &mut usize) -> Result<u32, Stop>
        ensures { Gives (λ found. (found, at.new)) result (field_at self.now.version self.now.bytes.now AttrType at.old) }
    {
        let start = *at as u64;
        let n = self.word(at)?;
        let last = if self.version == 5 { 11 } else { 6 };
        if n == 0 || last < n {
            return Err(Stop::Fault(HeaderErr::BadType(start)));
        }
        Ok(n)
    }

    /// How many values an attribute has.
    pub(crate) fn value_count(&self, at: &mut usize, size: u64) -> Result<u64, Stop>
        ensures { Gives (λ found. (found, at.new)) result (field_at self.now.version self.now.bytes.now (AttrCount size) at.old) }
    {
        let start = *at as u64;
        let n = self.number(at)?;
        if self.is_negative(n) {
            return Err(Stop::Fault(HeaderErr::BadNumber(start)));
        }
        Ok(n)
    }

    /// The values of an attribute and their padding.
    #[tactic(auto, unfolding(crate::specs::Reading::block_at))]
    pub(crate) fn values(
        &self,
        alloc: Global,
        at: &mut usize,
        count: u64,
        size: u64,
    ) -> Result<Blob, Stop>
        ensures { Gives (λ found. (found, at.new)) result (block_at self.now.version self.now.bytes.now (count * size) at.old) }
    {
        match count.checked_mul(size) {
            Some(len) => self.block(alloc, at, len),
            None => Err(self.past(*at)),
        }
    }

    /// An attribute.
    #[tactic(auto, unfolding(crate::specs::Reading::attr_at))]
    pub(crate) fn attr(&self, alloc: Global, at: &mut usize) -> Result<Attr, Stop>
        ensures { Gives (λ found. (found, at.new)) result (attr_at self.now.version self.now.bytes.now at.old) }
    {
        let name = self.name(alloc, at)?;
        let number = self.attr_type(at)?;
        let size = type_size(number);
        let count = self.value_count(at, size)?;
        let bytes = self.values(alloc, at, count, size)?;
        let kind = kind_of(number);
        Ok(Attr {
            name,
            kind,
            count,
            bytes,
        })
    }

    /// A list of attributes.
    #[tactic(auto, unfolding(crate::specs::Reading::attrs_at))]
    pub(crate) fn attrs(&self, alloc: Global, at: &mut usize) -> Result<AttrList, Stop>
        ensures { Gives (λ found. (found, at.new)) result (attrs_at self.now.version self.now.bytes.now at.old) }
    {
        let count = self.count(at, Section::Attributes)?;
        self.entries(alloc, at, count)
    }
}

impl Entry for Attr {
    ghost reading = { attr_at };

    fn read(bytes: &HeaderBytes<'_>, alloc: Global, at: &mut usize) -> Result<Attr, Stop> {
        bytes.attr(alloc, at)
    }
}
