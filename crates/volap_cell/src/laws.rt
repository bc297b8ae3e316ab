//! Laws of the invariant: that it is met to begin with, and what follows of it, in the words of the rules. There
//! is nothing to do at run time.

ghost use Rattle.volap_cell.specs.Promises.{OpeningLaw, PlaceLaw, RowsLaw, ImageLaw, QueryLaw};

/// What a core begins with meets the invariant.
pub fn opening_holds()
    ensures { OpeningLaw }
{}

/// Each row whose insert began and did not fail has just one place: it is in one shard that stands, once, in
/// its tree or its queue; or its insert stands on its server's desk, and its part has not passed a gate; or no part
/// for it was routed yet.
pub fn each_row_has_one_place()
    ensures { PlaceLaw }
{}

/// The rows of the shards that stand were begun and do not fail, each is there once, and each row that was
/// acknowledged is one of them.
pub fn shards_have_the_rows()
    ensures { RowsLaw }
{}

/// What a server must know is covered: each such row is in a shard that comes from one that the server's
/// image lists, with a box that covers it.
pub fn images_cover()
    ensures { ImageLaw }
{}

/// What the parts of an open query have counted are rows that its filter matches and that do not fail, each
/// once; and what it must hold is counted, or is in a shard that comes from that of a part which is not at
/// its end.
pub fn queries_count_once()
    ensures { QueryLaw }
{}
