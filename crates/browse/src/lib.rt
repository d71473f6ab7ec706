// Browsing: one record's bytes along with its S and k, carried from policy to policy.
#![tactic(auto)]

ghost use Rattle.std.specs.Prelude.{◌≡◌};
ghost use Rattle.model.specs.Calls.{accept_states, accept_count, shown};
ghost use Rattle.place.specs.Place.{browsed};

// The bytes of a record, how many states its book has (s) and how many policies it lists (k). `open` gives both as 0 unless the record is accepted.
#[derive(Clone, Copy)]
pub struct Browser<'a> {
    pub record: &'a [u8],
    pub s: usize,
    pub k: usize,
}

// The record is accepted or refused once, and its bytes are kept with the two figures, so that no policy asks for that again.
pub fn open(r: &[u8]) -> Browser<'_>
    ensures { (result.record ≡ r.entry) × (result.s ≡ accept_states r.now) × (result.k ≡ accept_count r.now) }
{
    let a = accept::accept(r).unwrap_or_default();
    Browser {
        record: r,
        s: a.s,
        k: a.k,
    }
}

// S: how many bytes each policy has.
pub fn states(w: Browser<'_>) -> usize
    ensures { result ≡ w.entry.s }
{
    w.s
}

// k: how many policies there are to browse.
pub fn count(w: Browser<'_>) -> usize
    ensures { result ≡ w.entry.k }
{
    w.k
}

// Policy j of any browser, also of one that `open` did not make.
pub fn plan<'a>(w: Browser<'a>, j: usize) -> &'a [u8]
    ensures { result.now ≡ browsed w.entry.record.now w.entry.s w.entry.k j }
{
    place::part(w.record, w.s, w.k, j)
}

// Policy j of any bytes, through a browser.
pub fn browse(r: &[u8], j: usize) -> &[u8]
    ensures { result.now ≡ shown r.now j }
{
    plan(open(r), j)
}
