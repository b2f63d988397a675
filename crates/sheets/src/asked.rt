// What a sheet is asked for.
use crate::request::Request;
use crate::stop::Stop;
use families::family::Family;
use files::draft::Draft;
use files::fault::Fault;
use std::alloc::Global;
use tables::filling::fill;
use tables::kind::WeightKind;

// The entries of the largest table: 160 rows of 41 sizes.
const ENTRIES: usize = 6560;

// The request, and the number of its name in the family that its file defines.
#[derive(Drop)]
pub(crate) struct Asked<'a> {
    pub(crate) request: Request<'a>,
    pub(crate) family: Family,
    pub(crate) name: usize,
}

impl<'a> Asked<'a> {
    // Reads the request line, reads and adopts the family file, and finds the name.
    pub(crate) fn read(heap: Global, input: &'a [u8]) -> Result<Asked<'a>, Stop> {
        let request = Request::try_from(input)?;
        let mut family = Family::new(heap)?;
        let mut draft = Draft::new(heap)?;
        draft.read(request.file)?;
        family.adopt(draft)?;
        let name = family.find(request.name).ok_or(Fault::UnknownName)?;
        Ok(Asked {
            request,
            family,
            name,
        })
    }

    // The family's table of a kind, up to the top size that is asked for.
    pub(crate) fn table<K: WeightKind>(&self, heap: Global) -> Result<Vec<K>, Stop> {
        let mut table = Vec::from_elem(heap, K::nothing(), ENTRIES)?;
        fill(&self.family, &mut table, self.request.top)?;
        Ok(table)
    }
}
