// The names of a sheet's records by chained hashing: whether they are all different, and which record has a name.
// The time is near linear for names that spread over the chains, and grows with the square of the count where a sheet is made so that all
// of its names fall into one chain.
#![tactic(auto)]

ghost use Rattle.std.specs.Prelude.{◌≡◌, false, ℕ, ◌≤◌, take};
ghost use Rattle.distinct.specs.Distinct.{NamesFit, repeats};
ghost use Rattle.distinct.specs.Chain.{Blank, Falling, Walked, Table, Placed};

// The places of the records' length bytes, at most 3,448, and a table of their names: for each chain the link to its last record, and for
// each record the link to the one before it. Record j has the link j + 1; the link 0 ends a chain.
#[derive(Drop)]
pub struct Index {
    pub starts: [u16; 3449],
    pub heads: [u16; 4096],
    pub next: [u16; 3449],
}

impl Index {
    // No places, and chains that are all empty.
    pub fn blank() -> Self
        ensures { Blank result }
    {
        Index {
            starts: [0; 3449],
            heads: [0; 4096],
            next: [0; 3449],
        }
    }

    // The record that has a name, on the way from a link.
    fn in_chain(&self, s: &[u8], from: u16, name: &[u8]) -> Option<usize>
        requires { (from ≤ 3449) × NamesFit s.now self.now.starts from × Falling self.now.next }
        ensures { Walked s.now self.now.starts self.now.next name.now from result }
    {
        // a chain is no range
        let mut link = usize::from(from);
        while 0 < link {
            let j = link - 1;
            if sheet_name::has_name(s, usize::from(self.starts[j]), name) {
                return Some(j);
            }
            link = usize::from(self.next[j]);
        }
        None
    }

    // Whether two of the first n records have the same name. Where they all differ, their table is made.
    pub fn repeats(&mut self, s: &[u8], n: usize) -> bool
        requires { (n ≤ 3449) × NamesFit s.now self.old.starts n × Blank self.old }
        ensures value { result ≡ repeats s.now (take n self.old.starts) }
        ensures starts { self.new.starts ≡ self.old.starts }
        ensures table { result ≡ false → Table s.now self.new.starts self.new.heads self.new.next n }
    {
        for i in 0..n {
            let name = sheet_name::name_at(s, usize::from(self.starts[i]));
            let h = sheet_name::hash_of(name);
            let first = self.heads[h];
            if self.in_chain(s, first, name).is_some() {
                return true;
            }
            self.next[i] = first;
            // i is below 3,449
            self.heads[h] = i as u16 + 1;
        }
        false
    }

    // The record that has a name, by the table.
    pub fn place_of(&self, s: &[u8], name: &[u8]) -> Option<usize>
        requires { (n : ℕ) × Table s.now self.now.starts self.now.heads self.now.next n }
        ensures { (n : ℕ) → Table s.now self.now.starts self.now.heads self.now.next n → Placed s.now self.now.starts n name.now result }
    {
        self.in_chain(s, self.heads[sheet_name::hash_of(name)], name)
    }
}
