//! Laws of reasons, and small cases. The calls do nothing: their contracts have them.

ghost use Rattle.std.specs.Prelude.{◌≡◌, ◌↔◌, ℕ, ◌∷◌, ◌++◌, List, None, Some, Option};
ghost use Rattle.std.specs.List.{AllByRecursion};
ghost use Rattle.js_base.specs.declared.ids.HostId.{HostId};
ghost use Rattle.label_lattice.specs.declared.label.Label.{Label};
ghost use Rattle.label_lattice.specs.Label.{ConfFlows, IntegFlows, IsTrustedBy};
ghost use Rattle.host_code.specs.Code.{CodeShape, halt};
ghost use Rattle.host_code.specs.declared.message.Message.TheVariants as message;
ghost use Rattle.host_code.specs.declared.message.Message.{Message};
ghost use Rattle.host_core.specs.Host.{HostState, Outcome};
ghost use Rattle.host_core.specs.Taking.{PassesCheck, IsTaking};
ghost use Rattle.ignored_reasons.specs.Reasons.{PartHolds, IsWhy, parts_of};
ghost use Rattle.ignored_reasons.specs.declared.why.Why.{Why};
ghost use Rattle.ignored_reasons.specs.declared.why.Why.TheVariants as reason;
ghost use Rattle.ignored_reasons.specs.ReasonExamples.{host_a, host_b, the_field, the_variable, the_entry, the_request};
ghost use Rattle.ignored_reasons.specs.ReasonExamples.{the_token, small_code, resting, gets, sets, forwards};
ghost use Rattle.ignored_reasons.specs.ReasonExamples.{enters, enters_with};

/// What a reason says of the check of a message, with any code and in any state of the host.
pub fn reason_laws()
    // There is no reason exactly where the check passes.
    ensures why_due { (code : CodeShape) (host : HostState) (from : HostId) (taken : Message) (found : Option Why) →
        IsWhy code host from taken found → ((found ≡ None) ↔ PassesCheck code host from taken) }
    // The part that a reason names is one of the check's. It is false, and all parts before it hold.
    ensures why_true { (code : CodeShape) (host : HostState) (from : HostId) (taken : Message) (why : Why) →
        IsWhy code host from taken (Some why) →
        (before behind : List Why) × (parts_of taken ≡ before ++ why ∷ behind)
        × AllByRecursion (PartHolds code host from taken) before × ¬ PartHolds code host from taken why }
    // There is one answer, and no other.
    ensures some_why { (code : CodeShape) (host : HostState) (from : HostId) (taken : Message) →
        (found : Option Why) × IsWhy code host from taken found }
    ensures one_why { (code : CodeShape) (host : HostState) (from : HostId) (taken : Message) (one other : Option Why) →
        IsWhy code host from taken one → IsWhy code host from taken other → one ≡ other }
    // Whether a message passed is seen from the count of those that were ignored.
    ensures seen { (code : CodeShape) (host : HostState) (from : HostId) (taken : Message) (outcome : Outcome) →
        IsTaking code host from taken outcome →
        ((outcome.state.ignored ≡ host.ignored) ↔ PassesCheck code host from taken) }
{}

/// Reasons that are worked out. Host A has the field, the variable and the entry, and B asks for them, but where it is
/// said otherwise.
pub fn reason_examples()
    // A field is asked for on a host that does not have it.
    ensures field_elsewhere { (label_of_b label : Label) (need : ℕ) →
        let code = small_code label_of_b label need in
        IsWhy code (resting code host_b) host_a gets (Some (reason.FieldElsewhere the_field)) }
    // B may not see what A's field holds, and is not trusted to change it.
    ensures may_not_see { (label_of_b label : Label) (need : ℕ) → ¬ ConfFlows label label_of_b →
        let code = small_code label_of_b label need in
        IsWhy code (resting code host_a) host_b gets (Some (reason.MayNotSee the_field)) }
    ensures may_see { (label_of_b label : Label) (need : ℕ) → ConfFlows label label_of_b →
        let code = small_code label_of_b label need in
        IsWhy code (resting code host_a) host_b gets None }
    ensures may_not_set { (label_of_b label : Label) (need : ℕ) → ¬ IntegFlows label_of_b label →
        let code = small_code label_of_b label need in
        IsWhy code (resting code host_a) host_b sets (Some (reason.MayNotSet the_field)) }
    ensures may_not_forward { (label_of_b label : Label) (need : ℕ) → ¬ IntegFlows label_of_b label →
        let code = small_code label_of_b label need in
        IsWhy code (resting code host_a) host_b forwards (Some (reason.MayNotForward the_variable)) }
    // Nobody enters at the entry that ends the program, or at an entry of another host.
    ensures no_halt { (label_of_b label : Label) (need : ℕ) →
        let code = small_code label_of_b label need in
        IsWhy code (resting code host_a) host_b (enters halt) (Some (reason.NoEntry halt)) }
    ensures no_entry { (label_of_b label : Label) (need : ℕ) →
        let code = small_code label_of_b label need in
        IsWhy code (resting code host_b) host_a (enters the_entry) (Some (reason.NoEntry the_entry)) }
    // Trust is told before what B may know, and that before what rides.
    ensures may_not_enter { (label_of_b label : Label) (need : ℕ) → ¬ IsTrustedBy label_of_b need →
        let code = small_code label_of_b label need in
        IsWhy code (resting code host_a) host_b (enters_with the_entry) (Some (reason.MayNotEnter the_entry)) }
    ensures may_not_know { (label_of_b label : Label) (need : ℕ) → IsTrustedBy label_of_b need →
        ¬ ConfFlows label label_of_b →
        let code = small_code label_of_b label need in
        IsWhy code (resting code host_a) host_b (enters_with the_entry) (Some (reason.MayNotKnow the_entry)) }
    ensures may_not_ride { (label_of_b label : Label) (need : ℕ) → IsTrustedBy label_of_b need →
        ConfFlows label label_of_b → ¬ IntegFlows label_of_b label →
        let code = small_code label_of_b label need in
        IsWhy code (resting code host_a) host_b (enters_with the_entry) (Some (reason.MayNotForward the_variable)) }
    // Nothing is on the stack of A, and no thread waits there.
    ensures not_on_top { (label_of_b label : Label) (need : ℕ) →
        let code = small_code label_of_b label need in
        IsWhy code (resting code host_a) host_b (message.Lgoto the_token) (Some reason.NotOnTop) }
    ensures none_waits { (label_of_b label : Label) (need : ℕ) →
        let code = small_code label_of_b label need in
        IsWhy code (resting code host_a) host_b (message.Ack the_request) (Some reason.NoneWaits) }
{}
