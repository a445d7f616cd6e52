// Sections of a header, and the dimensions.
ghost use Rattle.serial_spec.specs.HeaderFaults.{Count, DimLength};
ghost use Rattle.cdf_header.specs.Sections.{section_of};
ghost use Rattle.cdf_header.specs.Reading.{Gives, field_at, absent_at, dim_at, count_at, dims_at};

use crate::entries::Entry;
use crate::header_bytes::HeaderBytes;
use crate::section::Section;
use crate::stop::Stop;
use nc_base::{Dim, DimList, FILE_LIMIT, HeaderErr, MAX_DIMS, MAX_VARS};
use std::alloc::Global;

impl HeaderBytes<'_> {
    /// The tag of a section: whether the section is absent.
    #[tactic(auto, unfolding(crate::specs::Reading::absent_at))]
    pub(crate) fn tag(&self, at: &mut usize, section: Section) -> Result<bool, Stop>
        ensures { Gives (λ found. (found, at.new)) result (absent_at self.now.version self.now.bytes.now (section_of section) at.old) }
    {
        let start = *at as u64;
        let n = self.word(at)?;
        let wanted = match section {
            Section::Dimensions => 10,
            Section::Attributes => 12,
            Section::Variables => 11,
        };
        if n != 0 && n != wanted {
            return Err(Stop::Fault(HeaderErr::BadTag(start)));
        }
        Ok(n == 0)
    }

    /// The count of a section, which is 0 where the section is absent.
    pub(crate) fn entry_count(
        &self,
        at: &mut usize,
        section: Section,
        absent: bool,
    ) -> Result<u64, Stop>
        ensures { Gives (λ found. (found, at.new)) result (field_at self.now.version self.now.bytes.now (Count (section_of section) absent) at.old) }
    {
        let start = *at as u64;
        let n = self.number(at)?;
        if absent {
            if n != 0 {
                return Err(Stop::Fault(HeaderErr::BadNumber(start)));
            }
            return Ok(n);
        }
        if self.is_negative(n) {
            return Err(Stop::Fault(HeaderErr::BadNumber(start)));
        }
        let too_many = match section {
            Section::Dimensions => n > MAX_DIMS as u64,
            Section::Attributes => false,
            Section::Variables => n > MAX_VARS as u64,
        };
        if too_many {
            return Err(Stop::Fault(HeaderErr::TooLarge));
        }
        Ok(n)
    }

    /// The tag and the count of a section.
    #[tactic(auto, unfolding(crate::specs::Reading::count_at))]
    pub(crate) fn count(&self, at: &mut usize, section: Section) -> Result<u64, Stop>
        ensures { Gives (λ found. (found, at.new)) result (count_at self.now.version self.now.bytes.now (section_of section) at.old) }
    {
        let absent = self.tag(at, section)?;
        self.entry_count(at, section, absent)
    }

    /// The length of a dimension.
    pub(crate) fn dim_length(&self, at: &mut usize) -> Result<u64, Stop>
        ensures { Gives (λ found. (found, at.new)) result (field_at self.now.version self.now.bytes.now DimLength at.old) }
    {
        let start = *at as u64;
        let n = self.number(at)?;
        if self.is_negative(n) || n > FILE_LIMIT {
            return Err(Stop::Fault(HeaderErr::BadNumber(start)));
        }
        Ok(n)
    }

    /// A dimension.
    #[tactic(auto, unfolding(crate::specs::Reading::dim_at))]
    pub(crate) fn dim(&self, alloc: Global, at: &mut usize) -> Result<Dim, Stop>
        ensures { Gives (λ found. (found, at.new)) result (dim_at self.now.version self.now.bytes.now at.old) }
    {
        let name = self.name(alloc, at)?;
        let len = self.dim_length(at)?;
        Ok(Dim { name, len })
    }

    /// The list of dimensions.
    #[tactic(auto, unfolding(crate::specs::Reading::dims_at))]
    pub(crate) fn dims(&self, alloc: Global, at: &mut usize) -> Result<DimList, Stop>
        ensures { Gives (λ found. (found, at.new)) result (dims_at self.now.version self.now.bytes.now at.old) }
    {
        let count = self.count(at, Section::Dimensions)?;
        self.entries(alloc, at, count)
    }
}

impl Entry for Dim {
    ghost reading = { dim_at };

    fn read(bytes: &HeaderBytes<'_>, alloc: Global, at: &mut usize) -> Result<Dim, Stop> {
        bytes.dim(alloc, at)
    }
}
