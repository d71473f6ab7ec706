// Where policy j lies in a record: one lookup for any bytes and figures, which showing and browsing call.
#![tactic(auto)]

ghost use Rattle.std.specs.Prelude.{◌≡◌};
ghost use Rattle.place.specs.Place.{place_of, browsed};

// A part of a slice: where it begins, and how many bytes it has.
#[derive(Clone, Copy)]
pub struct Place {
    pub from: usize,
    pub size: usize,
}

// The place of policy j in bytes that are said to list k policies of s bytes; both figures are 0 where no record has such figures or the part is not there.
pub fn locate(r: &[u8], s: usize, k: usize, j: usize) -> Place
    ensures { result ≡ place_of r.now s k j }
{
    let none = Place { from: 0, size: 0 };
    if k <= j {
        return none;
    }
    if 64 < k {
        return none;
    }
    if 64 < s {
        return none;
    }
    if r.len() < 12 {
        return none;
    }
    let from = 12 + 4 * record::carried_length(r) + 8 * k + j * s;
    if r.len() < from + s {
        return none;
    }
    Place {
        from: from,
        size: s,
    }
}

// The bytes of that policy, a part of those lent; an empty part where it has no place.
pub fn part(r: &[u8], s: usize, k: usize, j: usize) -> &[u8]
    ensures { result.now ≡ browsed r.now s k j }
{
    let p = locate(r, s, k, j);
    let from = p.from;
    let to = from + p.size;
    &r[from..to]
}
