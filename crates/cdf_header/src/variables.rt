// Variables.
ghost use Rattle.serial_spec.specs.HeaderFaults.{DimCount, VarType, Vsize, Begin};
ghost use Rattle.cdf_header.specs.Reading.{Gives, field_at, unread_at, kind_at, id_at, ids_at, var_at, vars_at};

use crate::entries::Entry;
use crate::header_bytes::HeaderBytes;
use crate::section::Section;
use crate::stop::Stop;
use crate::type_numbers::kind_of;
use nc_base::{HeaderErr, IdList, MAX_VAR_DIMS, NcType, Var, VarList};
use std::alloc::Global;

impl HeaderBytes<'_> {
    /// The place of a dimension. One that 32 bits can't hold is read as the greatest that they hold, which is that of no
    /// dimension either.
    #[tactic(auto, unfolding(crate::specs::Reading::id_at))]
    pub(crate) fn id(&self, at: &mut usize) -> Result<u32, Stop>
        ensures { Gives (λ found. (found, at.new)) result (id_at self.now.version self.now.bytes.now at.old) }
    {
        let start = *at as u64;
        let n = self.number(at)?;
        if self.is_negative(n) {
            return Err(Stop::Fault(HeaderErr::BadNumber(start)));
        }
        Ok(n.min(0xffff_ffff) as u32)
    }

    /// How many dimensions a variable has.
    pub(crate) fn dim_count(&self, at: &mut usize) -> Result<u64, Stop>
        ensures { Gives (λ found. (found, at.new)) result (field_at self.now.version self.now.bytes.now DimCount at.old) }
    {
        let start = *at as u64;
        let n = self.number(at)?;
        if self.is_negative(n) {
            return Err(Stop::Fault(HeaderErr::BadNumber(start)));
        }
        if n > MAX_VAR_DIMS as u64 {
            return Err(Stop::Fault(HeaderErr::TooLarge));
        }
        Ok(n)
    }

    /// The places of a variable's dimensions.
    #[tactic(auto, unfolding(crate::specs::Reading::ids_at))]
    pub(crate) fn ids(&self, alloc: Global, at: &mut usize) -> Result<IdList, Stop>
        ensures { Gives (λ found. (found, at.new)) result (ids_at self.now.version self.now.bytes.now at.old) }
    {
        let count = self.dim_count(at)?;
        self.entries(alloc, at, count)
    }

    /// A variable's type.
    #[tactic(auto, unfolding(crate::specs::Reading::kind_at))]
    pub(crate) fn var_type(&self, at: &mut usize) -> Result<NcType, Stop>
        ensures { Gives (λ found. (found, at.new)) result (kind_at self.now.version self.now.bytes.now VarType at.old) }
    {
        let start = *at as u64;
        let n = self.word(at)?;
        let last = if self.version == 5 { 11 } else { 6 };
        if n == 0 || last < n {
            return Err(Stop::Fault(HeaderErr::BadType(start)));
        }
        Ok(kind_of(n))
    }

    /// The stored size of a variable, of which nothing is asked.
    #[tactic(auto, unfolding(crate::specs::Reading::unread_at))]
    pub(crate) fn stored_size(&self, at: &mut usize) -> Result<u64, Stop>
        ensures { Gives (λ found. (found, at.new)) result (unread_at self.now.version self.now.bytes.now Vsize at.old) }
    {
        self.number(at)
    }

    /// The byte at which a variable begins.
    pub(crate) fn begin(&self, at: &mut usize) -> Result<u64, Stop>
        ensures { Gives (λ found. (found, at.new)) result (field_at self.now.version self.now.bytes.now Begin at.old) }
    {
        let start = *at as u64;
        if self.version == 1 {
            let n = self.word(at)?;
            if n >= 1 << 31 {
                return Err(Stop::Fault(HeaderErr::BadNumber(start)));
            }
            return Ok(u64::from(n));
        }
        let n = self.double_word(at)?;
        if n >= 1 << 63 {
            return Err(Stop::Fault(HeaderErr::BadNumber(start)));
        }
        Ok(n)
    }

    /// A variable.
    #[tactic(auto, unfolding(crate::specs::Reading::var_at))]
    pub(crate) fn var(&self, alloc: Global, at: &mut usize) -> Result<Var, Stop>
        ensures { Gives (λ found. (found, at.new)) result (var_at self.now.version self.now.bytes.now at.old) }
    {
        let name = self.name(alloc, at)?;
        let dims = self.ids(alloc, at)?;
        let attrs = self.attrs(alloc, at)?;
        let kind = self.var_type(at)?;
        self.stored_size(at)?;
        let begin = self.begin(at)?;
        Ok(Var {
            name,
            dims,
            attrs,
            kind,
            begin,
        })
    }

    /// The list of variables.
    #[tactic(auto, unfolding(crate::specs::Reading::vars_at))]
    pub(crate) fn vars(&self, alloc: Global, at: &mut usize) -> Result<VarList, Stop>
        ensures { Gives (λ found. (found, at.new)) result (vars_at self.now.version self.now.bytes.now at.old) }
    {
        let count = self.count(at, Section::Variables)?;
        self.entries(alloc, at, count)
    }
}

/// The place of a dimension.
impl Entry for u32 {
    ghost reading = { id_at };

    fn read(bytes: &HeaderBytes<'_>, _: Global, at: &mut usize) -> Result<u32, Stop> {
        bytes.id(at)
    }
}

impl Entry for Var {
    ghost reading = { var_at };

    fn read(bytes: &HeaderBytes<'_>, alloc: Global, at: &mut usize) -> Result<Var, Stop> {
        bytes.var(alloc, at)
    }
}
