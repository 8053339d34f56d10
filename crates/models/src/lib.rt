// A model's tables by value: what a tester hands in.
#![tactic(auto)]

ghost use Rattle.std.specs.Prelude.{◌≡◌, cond, not, ◌&&◌, ◌||◌, [], ◌∷◌, map, ◌^◌, ◌≤◌, leb, ltb, pos, nat_abs};
ghost use Rattle.std.specs.Int.Signed.{le_z};
ghost use Rattle.integers.specs.Limits.{given_limit};
ghost use Rattle.integers.specs.Lists.{All, every, from};
ghost use Rattle.integers.specs.Signs.{is_zero};
ghost use Rattle.rows.specs.Rows.{set_rows, at, holds_at, Small, Within};
ghost use Rattle.sets.specs.Outcomes.{Ok};
ghost use Rattle.sets.specs.declared.Refusal.{Refusal};
ghost use Rattle.models.specs.Automaton.{given_rows, given_transitions, reference_list, row_of, kind_number, is_of, rows_of, setting_of};
ghost use Rattle.models.specs.Acceptance.{unless, between, between_whole, header_fits, transition_declared, kind_of, owner_declared, entry_declared, entries_declared, reference_fits, row_declared, terms_fit, rows_accepted, reference_accepted, accepted};

use rows::{Row, Set};
use sets::Refusal;
use std::array;

// How many clocks, parameters, locations and transitions there are.
#[derive(Clone, Copy, Default)]
pub struct Header {
    pub clocks: u8,
    pub parameters: u8,
    pub locations: u8,
    pub transitions: u8,
}

// One denominator, and a numerator for each parameter; those beyond the declared ones are not looked at.
#[derive(Clone, Copy, Default)]
pub struct Reference {
    pub denominator: i32,
    pub numerators: [i32; 8],
}

// Bit 0 of the resets is clock 1.
#[derive(Clone, Copy, Default)]
pub struct Transition {
    pub source: u8,
    pub action: u8,
    pub target: u8,
    pub resets: u8,
}

// What a row belongs to: the initial constraint, a location's invariant or a transition's guard.
#[derive(Clone, Copy)]
pub enum Kind {
    Initial,
    Invariant,
    Guard,
}

impl TryFrom<u8> for Kind {
    type Error = Refusal;

    ghost try_from_gives = { λ number kind. kind ≡ kind_of number };

    fn try_from(number: u8) -> Result<Kind, Refusal> {
        match number {
            0 => Ok(Kind::Initial),
            1 => Ok(Kind::Invariant),
            2 => Ok(Kind::Guard),
            _ => Err(Refusal::Undeclared),
        }
    }
}

impl From<Kind> for u8 {
    fn from(kind: Kind) -> u8
        ensures { result ≡ kind_number kind }
    {
        kind as u8
    }
}

// The kind, the owner and the flag are numbers, as they are handed in: what they say is tested, and refused by 5.
#[derive(Clone, Copy, Default)]
pub struct ModelRow {
    pub kind: u8,
    pub owner: u8,
    pub strict: u8,
    pub entries: [i32; 16],
}

// The rows beyond `count` are not looked at; a count above 128 is refused. Tables of a fixed size with their counts beside, here and in the
// header: there is no heap, and a tester hands them in as they are. So are the kind and the owner of a row, two numbers.
#[derive(Clone, Copy)]
pub struct Model {
    pub header: Header,
    pub reference: Reference,
    pub transitions: [Transition; 64],
    pub rows: [ModelRow; 128],
    pub count: usize,
}

impl Header {
    // 3: 1 to 6 clocks, 1 to 8 parameters, 1 to 32 locations, 0 to 64 transitions.
    #[tactic(auto, unfolding(crate::specs::Acceptance::header_fits))]
    pub fn fits(self) -> bool
        ensures { result ≡ header_fits self }
    {
        (1..=6).contains(&self.clocks)
            && (1..=8).contains(&self.parameters)
            && (1..=32).contains(&self.locations)
            && self.transitions <= 64
    }

    // 5 of a transition.
    #[tactic(auto, unfolding(crate::specs::Acceptance::transition_declared))]
    pub fn transition_declared(self, t: Transition) -> bool
        ensures { result ≡ transition_declared self t }
    {
        t.source < self.locations
            && t.target < self.locations
            && resets_declared(t.resets, self.clocks)
    }

    // 5 of a row: its owner.
    #[tactic(auto, unfolding(crate::specs::Acceptance::owner_declared))]
    pub fn owner_declared(self, kind: u8, owner: u8) -> bool
        ensures { result ≡ owner_declared self kind owner }
    {
        match Kind::try_from(kind) {
            Ok(Kind::Initial) => owner == 0,
            Ok(Kind::Invariant) => owner < self.locations,
            Ok(Kind::Guard) => owner < self.transitions,
            Err(_) => false,
        }
    }

    // 5 of a row: an entry that it names.
    #[tactic(auto, unfolding(crate::specs::Acceptance::entry_declared))]
    pub fn entry_declared(self, kind: u8, entry: usize) -> bool
        ensures { result ≡ entry_declared self kind entry }
    {
        entry <= usize::from(self.parameters)
            || kind != Kind::Initial as u8 && (9..=8 + usize::from(self.clocks)).contains(&entry)
    }
}

// Whether no reset bit stands beyond the last clock. Eight clocks and more, which no header has that fits, would take every bit.
#[tactic(auto, using(crate::proofs::Tests::all_bits))]
fn resets_declared(resets: u8, clocks: u8) -> bool
    ensures { result ≡ ltb resets (2 ^ clocks) }
{
    7 < clocks || u32::from(resets) < 1 << clocks
}

impl Reference {
    // Inner step: 4, of the denominator and the declared numerators. The number of parameters is the header's, which fits (3), and so is no more
    // than 8: asked for, since it is an index here.
    pub fn fits(self, parameters: u8) -> bool
        requires { parameters ≤ 8 }
        ensures { result ≡ reference_fits (reference_list self parameters) }
    {
        let declared = &self.numerators[..usize::from(parameters)];
        (1..=1_000_000).contains(&self.denominator)
            && declared.iter().all(|n| (0..=1_000_000).contains(n))
    }

    // Inner step: the denominator, a declared numerator, or 0.
    fn number(self, parameters: u8, i: usize) -> i64
        requires { i ≤ 8 }
        ensures { result ≡ at (reference_list self parameters) i }
    {
        if i == 0 {
            i64::from(self.denominator)
        } else if i <= usize::from(parameters) {
            i64::from(self.numerators[i - 1])
        } else {
            0
        }
    }

    // The setting that it gives to eight parameters: those that are not declared are 0.
    pub fn setting(self, parameters: u8) -> [i64; 9]
        ensures { result ≡ setting_of self parameters }
    {
        array::from_fn(|i| self.number(parameters, i))
    }
}

impl ModelRow {
    // The row as its owner has it. Its flag is a number that 5 tests, so this is a reading and no conversion.
    pub fn row(self) -> Row
        ensures { result ≡ row_of self }
    {
        let entries = self.entries;
        Row {
            entries,
            strict: self.strict == 1,
        }
    }

    pub fn is_of(self, kind: u8, owner: u8) -> bool
        ensures { result ≡ is_of kind owner self }
    {
        self.kind == kind && self.owner == owner
    }

    // 5 of a row.
    #[tactic(auto, unfolding(crate::specs::Acceptance::row_declared))]
    pub fn declared(self, h: Header) -> bool
        ensures { result ≡ row_declared h self }
    {
        h.owner_declared(self.kind, self.owner)
            && self.strict <= 1
            && entries_declared(h, self.kind, self.entries)
    }

    // 5 of a row, then 6.
    #[tactic(auto, unfolding(crate::specs::Acceptance::rows_accepted))]
    pub fn outcome(self, h: Header) -> Result<(), Refusal>
        ensures { result ≡ rows_accepted h (self ∷ []) (Ok tt) }
    {
        if !self.declared(h) {
            return Err(Refusal::Undeclared);
        }
        if !terms_fit(self.entries) {
            return Err(Refusal::WrongTerms);
        }
        Ok(())
    }

    // Inner step: not a row of location 0 or of the initial constraint, as the kind says, or met by the setting.
    fn is_met(self, kind: Kind, setting: [i64; 9]) -> bool
        requires { Small self.entries × Within given_limit setting }
        ensures { result ≡ not (is_of (kind_number kind) 0 self) || holds_at setting (row_of self) }
    {
        !self.is_of(u8::from(kind), 0) || self.row().holds(setting)
    }
}

// Whether each entry is 0 or declared.
fn entries_declared(h: Header, kind: u8, e: [i32; 16]) -> bool
    ensures { result ≡ entries_declared h kind 0 e }
{
    e.iter()
        .enumerate()
        .all(|(i, z)| *z == 0 || h.entry_declared(kind, i))
}

// 6 of a row: its terms are its nonzero entries.
fn terms_fit(e: [i32; 16]) -> bool
    ensures { result ≡ terms_fit e }
{
    e != [0; 16] && e.iter().all(|z| z.unsigned_abs() <= 1_000_000)
}

impl Model {
    // The reference as a setting of eight parameters.
    pub fn setting(&self) -> [i64; 9]
        ensures { result ≡ setting_of self.now.reference self.now.header.parameters }
    {
        self.reference.setting(self.header.parameters)
    }

    // The rows that the count takes in, and no more than the table holds.
    pub fn given_rows(&self) -> &[ModelRow]
        ensures { result.now ≡ given_rows self.now }
    {
        &self.rows[..self.count.min(Set::ROWS)]
    }

    fn transitions_declared(&self) -> bool
        requires { self.now.header.transitions ≤ 64 }
        ensures { result ≡ every (transition_declared self.now.header) (given_transitions self.now) }
    {
        self.transitions[..usize::from(self.header.transitions)]
            .iter()
            .all(|t| self.header.transition_declared(*t))
    }

    // 5 and 6 of the rows in table order, the first that applies.
    #[tactic(auto, using(crate::proofs::Tables::rows_stop, crate::proofs::Tables::rows_turn, crate::proofs::Tables::rows_done))]
    fn rows_outcome(&self) -> Result<(), Refusal>
        ensures { result ≡ rows_accepted self.now.header (given_rows self.now) (Ok tt) }
    {
        for r in self.given_rows() {
            r.outcome(self.header)?;
        }
        Ok(())
    }

    // Inner step: whether the setting meets the initial constraint, or the invariant of location 0, as the kind says.
    fn meets(&self, kind: Kind, setting: [i64; 9]) -> bool
        requires { All (λ r. Small r.entries) (given_rows self.now) × Within given_limit setting }
        ensures { result ≡ every (holds_at setting) (rows_of self.now (kind_number kind) 0) }
    {
        self.given_rows().iter().all(|r| r.is_met(kind, setting))
    }

    // Inner step: what follows 2 to 6 of the rows in the table: a row too many, then 7 and 8.
    #[tactic(auto, using(crate::proofs::Setting::setting_met, crate::proofs::Setting::setting_within), unfolding(crate::specs::Acceptance::reference_accepted))]
    fn reference_outcome(&self) -> Result<(), Refusal>
        requires { All (λ r. Small r.entries) (given_rows self.now) × Within given_limit (reference_list self.now.reference self.now.header.parameters) × (self.now.header.parameters ≤ 8) }
        ensures { result ≡ unless (leb self.now.count set_rows) Refusal.Misplaced (reference_accepted self.now) }
    {
        if Set::ROWS < self.count {
            return Err(Refusal::Misplaced);
        }
        let setting = self.setting();
        if !self.meets(Kind::Initial, setting) {
            return Err(Refusal::InitialBroken);
        }
        if !self.meets(Kind::Invariant, setting) {
            return Err(Refusal::InvariantBroken);
        }
        Ok(())
    }

    // Found, or the first of the refusals 2 to 8 that applies.
    #[tactic(auto, using(crate::proofs::Accepted::rows_passed, crate::proofs::Tables::rows_found, crate::proofs::Tables::rows_refused), unfolding(crate::specs::Acceptance::accepted))]
    pub fn accepted(&self) -> Result<(), Refusal>
        ensures { result ≡ accepted self.now }
    {
        if !self.header.fits() {
            return Err(Refusal::HeaderRange);
        }
        if !self.reference.fits(self.header.parameters) {
            return Err(Refusal::ReferenceRange);
        }
        if !self.transitions_declared() {
            return Err(Refusal::Undeclared);
        }
        self.rows_outcome()?;
        self.reference_outcome()
    }
}
