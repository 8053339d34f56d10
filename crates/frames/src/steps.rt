// A frame met: whether it is in its place, and what is taken from it.
ghost use Rattle.std.specs.Prelude.{◌≡◌, ◌≢◌, List, ℕ, ◌+◌, ◌*◌, ◌≤◌, length, take, IsOk};
ghost use Rattle.frames.specs.Reading.{Seen, progress_of, declared, due_length, is_due, placed, term_count, header_frame, reference_frame, transition_frame, row_frame, content, frame};
ghost use Rattle.frames.specs.Steps.{frame_limit, kind_number, known_kind, after, Told, Sound};

use crate::{Frame, Progress, frames};
use models::Header;
use rows::Set;
use sets::Refusal;

// The kinds of frames, as their first byte numbers them.
#[derive(Clone, Copy, PartialEq, Eq)]
pub enum Kind {
    Header = 1,
    Reference,
    Row,
    Transition,
}

impl TryFrom<u8> for Kind {
    type Error = Refusal;

    fn try_from(kind: u8) -> Result<Kind, Refusal>
        ensures { result ≡ known_kind kind }
    {
        match kind {
            1 => Ok(Kind::Header),
            2 => Ok(Kind::Reference),
            3 => Ok(Kind::Row),
            4 => Ok(Kind::Transition),
            _ => Err(Refusal::NoFrame),
        }
    }
}

impl Progress {
    // The header; zeros before it was met.
    pub fn declared(self) -> Header
        ensures { result ≡ declared self }
    {
        self.header.unwrap_or_default()
    }

    #[tactic(auto, unfolding(crate::specs::Reading::is_due))]
    fn is_due(self, kind: Kind) -> bool
        ensures { result ≡ is_due self (kind_number kind) }
    {
        let declared = usize::from(self.declared().transitions);
        match kind {
            Kind::Header => self.header.is_none(),
            Kind::Reference => self.reference.is_none(),
            Kind::Transition => self.reference.is_some() && self.transitions < declared,
            Kind::Row => {
                self.reference.is_some() && self.transitions == declared && self.rows < Set::ROWS
            }
        }
    }

    // 1 and 2 of a frame with so many bytes behind its kind.
    #[tactic(auto, unfolding(crate::specs::Reading::placed))]
    fn placed(self, kind: Kind, count: usize, terms: u8) -> Result<(), Refusal>
        ensures { result ≡ placed self (kind_number kind) count terms }
    {
        if self.header.is_none() && kind != Kind::Header {
            return Err(Refusal::Misplaced);
        }
        if count != due_length(self.declared(), kind, terms) {
            return Err(Refusal::NoFrame);
        }
        if !self.is_due(kind) {
            return Err(Refusal::Misplaced);
        }
        Ok(())
    }

    // Inner step: what has been read, counted, after a frame that was taken.
    pub fn after(self, f: Frame) -> Progress
        requires { (self.transitions ≤ 64) × (self.rows ≤ 128) }
        ensures { result ≡ after self f }
    {
        match f {
            Frame::Header(h) => Progress {
                header: Some(h),
                ..self
            },
            Frame::Reference(r) => Progress {
                reference: Some(r),
                ..self
            },
            Frame::Row(_) => Progress {
                rows: self.rows + 1,
                ..self
            },
            Frame::Transition(_) => Progress {
                transitions: self.transitions + 1,
                ..self
            },
        }
    }
}

#[tactic(auto, unfolding(crate::specs::Reading::due_length))]
fn due_length(h: Header, kind: Kind, terms: u8) -> usize
    ensures { result ≡ due_length h (kind_number kind) terms }
{
    match kind {
        Kind::Header | Kind::Transition => 4,
        Kind::Reference => 4 + usize::from(h.parameters) * 4,
        Kind::Row => 4 + usize::from(terms) * 5,
    }
}

// Inner step: 3. Of three kinds each is a test and a refusal: a helper would take the test, the refusal and the case, and be no shorter.
#[tactic(auto, unfolding(crate::specs::Reading::header_frame))]
fn header_frame(b: &[u8]) -> Result<Frame, Refusal>
    requires { length b.now ≡ 4 }
    ensures { (s : Seen) → Told result s (header_frame s b.now) }
{
    let h = frames::header_of(b);
    if !h.fits() {
        return Err(Refusal::HeaderRange);
    }
    Ok(Frame::Header(h))
}

// Inner step: 4.
fn reference_frame(h: Header, b: &[u8]) -> Result<Frame, Refusal>
    requires { (h.parameters ≤ 8) × (length b.now ≡ 4 + h.parameters * 4) }
    ensures { (s : Seen) → s.header ≡ h → Told result s (reference_frame s b.now) }
{
    let reference = frames::reference_of(b, h);
    if !reference.fits(h.parameters) {
        return Err(Refusal::ReferenceRange);
    }
    Ok(Frame::Reference(reference))
}

// Inner step: 5 of a transition.
#[tactic(auto, unfolding(crate::specs::Reading::transition_frame))]
fn transition_frame(h: Header, b: &[u8]) -> Result<Frame, Refusal>
    requires { length b.now ≡ 4 }
    ensures { (s : Seen) → s.header ≡ h → Told result s (transition_frame s b.now) }
{
    let t = frames::transition_of(b);
    if !h.transition_declared(t) {
        return Err(Refusal::Undeclared);
    }
    Ok(Frame::Transition(t))
}

// Inner step: 5 of a row, then 6.
#[tactic(auto, unfolding(crate::specs::Reading::row_frame))]
fn row_frame(h: Header, b: &[u8]) -> Result<Frame, Refusal>
    requires { Sound h × (length b.now ≡ 4 + term_count b.now * 5) }
    ensures { (s : Seen) → s.header ≡ h → Told result s (row_frame s b.now) }
{
    if !frames::row_declared(b, h) {
        return Err(Refusal::Undeclared);
    }
    if !frames::terms_fit(b) {
        return Err(Refusal::WrongTerms);
    }
    Ok(Frame::Row(frames::row_of(b)))
}

// Inner step: what a frame of right length holds, the kind taken off.
fn content(h: Header, kind: Kind, b: &[u8]) -> Result<Frame, Refusal>
    requires { Sound h × (length b.now ≡ due_length h (kind_number kind) (term_count b.now)) }
    ensures { (s : Seen) → (kind_number kind ≢ 1 → s.header ≡ h) → Told result s (content s (kind_number kind) b.now) }
{
    match kind {
        Kind::Header => header_frame(b),
        Kind::Reference => reference_frame(h, b),
        Kind::Row => row_frame(h, b),
        Kind::Transition => transition_frame(h, b),
    }
}

// Inner step: the frame of a line of so many bytes, the first 1,280 of which stand in the buffer.
pub fn frame(p: Progress, count: usize, buffer: &[u8]) -> Result<Frame, Refusal>
    requires { Sound (declared p) × (length buffer.now ≡ frame_limit) }
    ensures { (s : Seen) (bs : List ℕ) → progress_of s ≡ p → length bs ≡ count → take count buffer.now ≡ take frame_limit bs → Told result s (frame s bs) }
{
    let Some((kind, b)) = buffer[..count.min(buffer.len())].split_first() else {
        return Err(Refusal::NoFrame);
    };
    let kind = Kind::try_from(*kind)?;
    p.placed(kind, count - 1, frames::term_count(b))?;
    content(p.declared(), kind, b)
}
