//! What guests' serial ports answer and keep, and that what they have given is a prefix of the listing.

ghost use Rattle.std.specs.Prelude.{List, get_or, ℕ, ◌<◌, ◌≡◌, ◌≢◌};
ghost use Rattle.engine.specs.Calls.{Call, InRange, port};
ghost use Rattle.engine.specs.Engine.{Engine, after, refusal_for};
ghost use Rattle.engine.specs.Reached.{Reached};
ghost use Rattle.engine.specs.Sequences.{NoOpen, Opening, after_opening};
ghost use Rattle.engine.specs.Values.{number, value_of};
ghost use Rattle.ports.specs.Uart.{reset_port, values_at};
ghost use Rattle.receiving.specs.Received.{AskedInRange, Served, listing_in, port_on, received};
ghost use Rattle.serial.specs.Calls.{PortCall, access, port_of, read, reset};
ghost use Rattle.submissions.specs.Requests.{Asked, InRangeThen, Request, after_requests, guest, result_of, submission_of};

/// An accepted read answers what the offset shows.
#[tactic(auto, using(crate::proofs::ResetLaws::answers_shown))]
pub fn answers_shown()
    ensures { (e : Engine) (g o : ℕ) → refusal_for e (port (access g (read o))) ≡ 0
        → value_of e (port (access g (read o)))
        ≡ number (get_or (values_at (listing_in e) (port_on e g)) o 0) }
{}

/// An accepted reset leaves the port with all registers 0 and nothing read.
#[tactic(auto, using(crate::proofs::ResetLaws::resets))]
pub fn resets()
    ensures { (e : Engine) (g : ℕ) → refusal_for e (port (reset g)) ≡ 0
        → port_on (after e (port (reset g))) g ≡ reset_port }
{}

/// An accepted open leaves every port with all registers 0 and nothing read.
#[tactic(auto, using(crate::proofs::ResetLaws::opening_resets))]
pub fn opening_resets()
    ensures { (x : Opening) (g : ℕ) → g < 8 → port_on (after_opening x) g ≡ reset_port }
{}

/// No call but an accepted open and what is asked of that port changes a port.
#[tactic(auto, using(crate::proofs::OtherPorts::leaves_ports))]
pub fn leaves_ports()
    ensures { (e : Engine) → Reached e → (c : Call) → InRange c → NoOpen e c → (h : ℕ) → h < 8
        → ((x : PortCall) → c ≡ port x → port_of x ≢ h) → port_on (after e c) h ≡ port_on e h }
{}

/// What a caller asks leaves every other guest's port.
#[tactic(auto, using(crate::proofs::OtherPorts::leaves_other_ports))]
pub fn leaves_other_ports()
    ensures { (e : Engine) → Reached e → (c : ℕ) (a : Asked)
        → InRangeThen e (submission_of e (guest c a)) → (h : ℕ) → h < 8 → h ≢ c
        → port_on (result_of e (guest c a)).engine h ≡ port_on e h }
{}

/// From an accepted open on, however commits and accesses alternate and whoever signed, what a port has given since its last reset is a prefix of the listing.
pub fn reads_a_prefix()
    ensures { (x : Opening) (l : List Request) → AskedInRange (after_opening x) l → (g : ℕ) → g < 8
        → Served (after_requests (after_opening x) l) g (received (after_opening x) g l) }
{}
