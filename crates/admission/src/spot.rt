// A place of a script, with all that a test of it reads.
use crate::latest::Latest;
use script::{Pos, Table};

// `latest` says of each name where it was last seen before the place.
#[derive(Clone, Copy)]
pub(crate) struct Spot<'a> {
    pub table: Table<'a>,
    pub latest: &'a Latest,
    pub place: Pos,
}
