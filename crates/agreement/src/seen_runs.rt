//! Laws of two runs of which the same may be seen. The calls do nothing: their contracts are the laws.

ghost use Rattle.std.specs.Prelude.{◌≡◌, ℕ, ℤ, pos, List, [], ◌∷◌, ◌++◌, All};
ghost use Rattle.host_decl.specs.Hosts as declared_hosts;
ghost use Rattle.host_code.specs.Code.{CodeShape};
ghost use Rattle.host_code.specs.Sound.{IsSoundCode};
ghost use Rattle.event_text.specs.declared.event.Event.{Event};
ghost use Rattle.event_text.specs.declared.event.Event.TheVariants.{Turn};
ghost use Rattle.net_world.specs.Fits.{HasOwnToken};
ghost use Rattle.net_world.specs.Released.{OneIsFront, Releases, AreReleased, released_at};
ghost use Rattle.net_world.specs.Secret.{IsQuiet, IsSeenRun, IsPrompt};
ghost use Rattle.net_world.specs.Told.{SentMessage};
ghost use Rattle.net_world.specs.World.{WorldShape, AreHostsOf, world_at_start, IsStep};
ghost use Rattle.split_rules.specs.Placed.{PlacedProgram};
ghost use Rattle.split_rules.specs.Allowed.{IsAllowed};
ghost use Rattle.split_rules.specs.Held.{IsWellHeld};
ghost use Rattle.split_rules.specs.Releases.{ReleasesShape, releases_of};
ghost use Rattle.split_rules.specs.SplitCode.{split_code};
ghost use Rattle.split_rules.specs.Splittable.{IsSplittable};
ghost use Rattle.split_shades.specs.Flows.{AreResultsLabelled};
ghost use Rattle.split_shades.specs.ShadedCode.{IsTabled};
ghost use Rattle.split_shades.specs.Sites.{ReleasesNothing};
ghost use Rattle.token_laws.specs.Reached.{IsReached};
ghost use Rattle.token_laws.specs.TokenExamples.{host_id, handing, good_start, bad_start};
ghost use Rattle.seen_world.specs.Eyes.{Eyes, AreEyes, Watches};
ghost use Rattle.agreement.specs.Alike.{AreStartsAlike, AreStoresAlike};
ghost use Rattle.agreement.specs.Leads.{Agree};
ghost use Rattle.agreement.specs.ReleaseExamples.{a_table};

/// What two runs tell misbehaving hosts of which the same may be seen, where the values that one releases go on as
/// those of the other. A table has the rows of the shades: for each instruction the operands that it releases. Such
/// hosts present tokens that they were sent, or their own.
pub fn run_laws()
    // Two quiet worlds that agree do after the same event, whatever it is, where it releases the same values in both.
    ensures event { (eyes : Eyes) (rows : List declared_hosts.HostShape) (bad : ℕ) (store start : List (List ℤ))
        (events others : List Event) (one other one_after other_after : WorldShape) (event : Event)
        (table : ReleasesShape) (own : List ℤ) →
        AreEyes eyes → IsTabled eyes.code eyes.shades table →
        Releases eyes.code table one event own → Releases eyes.code table other event own →
        Watches eyes (world_at_start eyes.code rows bad store) →
        Watches eyes (world_at_start eyes.code rows bad start) →
        IsReached eyes.code rows bad store events one → IsReached eyes.code rows bad start others other →
        HasOwnToken (world_at_start eyes.code rows bad store) event →
        IsStep eyes.code one event one_after → IsStep eyes.code other event other_after →
        IsQuiet eyes.code one → IsQuiet eyes.code other → Agree eyes one other → Agree eyes one_after other_after }
    // In worlds that agree misbehaving hosts were sent the same.
    ensures sent { (eyes : Eyes) (one other : WorldShape) → Agree eyes one other → one.sent ≡ other.sent }
    // Events of which it is known what may be seen release one list of values.
    ensures some_values { (code : CodeShape) (table : ReleasesShape) (world : WorldShape) (events seen : List Event)
        (after : WorldShape) →
        IsSeenRun code world events seen after → (values : List ℤ) × AreReleased code table world events values }
    ensures one_values { (code : CodeShape) (table : ReleasesShape) (world : WorldShape) (events seen : List Event)
        (after : WorldShape) (values others : List ℤ) →
        IsSeenRun code world events seen after → AreReleased code table world events values →
        AreReleased code table world events others → values ≡ others }
    // Two runs leave worlds that agree which begin alike, of which the same events may be seen, each in a quiet world,
    // and which release the same values as far as both go.
    ensures runs { (eyes : Eyes) (rows : List declared_hosts.HostShape) (bad : ℕ) (store start : List (List ℤ))
        (events others seen : List Event) (one other : WorldShape) (table : ReleasesShape)
        (values others_values : List ℤ) →
        AreEyes eyes → IsSoundCode eyes.code → AreHostsOf eyes.code rows → IsTabled eyes.code eyes.shades table →
        Watches eyes (world_at_start eyes.code rows bad store) →
        Watches eyes (world_at_start eyes.code rows bad start) → AreStartsAlike eyes store start →
        AreReleased eyes.code table (world_at_start eyes.code rows bad store) events values →
        AreReleased eyes.code table (world_at_start eyes.code rows bad start) others others_values →
        OneIsFront values others_values →
        All (HasOwnToken (world_at_start eyes.code rows bad store)) seen →
        IsSeenRun eyes.code (world_at_start eyes.code rows bad store) events seen one →
        IsSeenRun eyes.code (world_at_start eyes.code rows bad start) others seen other →
        IsPrompt eyes.code (world_at_start eyes.code rows bad store) events →
        IsPrompt eyes.code (world_at_start eyes.code rows bad start) others → Agree eyes one other }
    // Where more is seen of one of them, what misbehaving hosts were sent in it begins with all that they were sent in
    // the other.
    ensures tells { (eyes : Eyes) (rows : List declared_hosts.HostShape) (bad : ℕ) (store start : List (List ℤ))
        (events others seen more : List Event) (one other : WorldShape) (table : ReleasesShape)
        (values others_values : List ℤ) →
        AreEyes eyes → IsSoundCode eyes.code → AreHostsOf eyes.code rows → IsTabled eyes.code eyes.shades table →
        Watches eyes (world_at_start eyes.code rows bad store) →
        Watches eyes (world_at_start eyes.code rows bad start) → AreStartsAlike eyes store start →
        AreReleased eyes.code table (world_at_start eyes.code rows bad store) events values →
        AreReleased eyes.code table (world_at_start eyes.code rows bad start) others others_values →
        OneIsFront values others_values →
        All (HasOwnToken (world_at_start eyes.code rows bad store)) seen →
        IsSeenRun eyes.code (world_at_start eyes.code rows bad store) events (seen ++ more) one →
        IsSeenRun eyes.code (world_at_start eyes.code rows bad start) others seen other →
        IsPrompt eyes.code (world_at_start eyes.code rows bad store) events →
        IsPrompt eyes.code (world_at_start eyes.code rows bad start) others →
        (rest : List SentMessage) × (one.sent ≡ other.sent ++ rest) }
    // So it is of the code of each program that was checked, placed and split, with its table of releases, whichever
    // hosts misbehave: in two runs from stores with the same values in all fields on obeying hosts that misbehaving
    // hosts may read.
    ensures released { (placed : PlacedProgram) (bad : ℕ) (store start : List (List ℤ))
        (events others seen more : List Event) (one other : WorldShape) (values others_values : List ℤ) →
        let code = split_code placed in
        let table = releases_of placed in
        let first = world_at_start code placed.hosts.hosts bad store in
        let second = world_at_start code placed.hosts.hosts bad start in
        IsSplittable placed → IsAllowed placed → IsWellHeld placed → AreResultsLabelled placed.labelled.program →
        AreStoresAlike code first store start →
        AreReleased code table first events values → AreReleased code table second others others_values →
        OneIsFront values others_values → All (HasOwnToken first) seen →
        IsSeenRun code first events (seen ++ more) one → IsSeenRun code second others seen other →
        IsPrompt code first events → IsPrompt code second others →
        (rest : List SentMessage) × (one.sent ≡ other.sent ++ rest) }
    // A run of a program that releases nothing releases no value, so nothing need be known of what its runs release.
    ensures none { (placed : PlacedProgram) (world after : WorldShape) (events seen : List Event) →
        IsSplittable placed → IsAllowed placed → IsWellHeld placed →
        AreResultsLabelled placed.labelled.program → ReleasesNothing placed.labelled.program →
        IsSeenRun (split_code placed) world events seen after →
        AreReleased (split_code placed) (releases_of placed) world events [] }
    ensures split { (placed : PlacedProgram) (bad : ℕ) (store start : List (List ℤ))
        (events others seen more : List Event) (one other : WorldShape) →
        let code = split_code placed in
        let first = world_at_start code placed.hosts.hosts bad store in
        let second = world_at_start code placed.hosts.hosts bad start in
        IsSplittable placed → IsAllowed placed → IsWellHeld placed →
        AreResultsLabelled placed.labelled.program → ReleasesNothing placed.labelled.program →
        AreStoresAlike code first store start → All (HasOwnToken first) seen →
        IsSeenRun code first events (seen ++ more) one → IsSeenRun code second others seen other →
        IsPrompt code first events → IsPrompt code second others →
        (rest : List SentMessage) × (one.sent ≡ other.sent ++ rest) }
{}

/// What small runs release, which denies other definitions.
pub fn release_examples()
    // A turn that misbehaving hosts may see releases the values of the operands at its place, in order.
    ensures seen_turn { Releases handing a_table bad_start (Turn (host_id 0)) (pos 7 ∷ pos 8 ∷ []) }
    ensures seen_turn_less { ¬ (Releases handing a_table bad_start (Turn (host_id 0)) []) }
    ensures run { AreReleased handing a_table bad_start (Turn (host_id 0) ∷ []) (pos 7 ∷ pos 8 ∷ []) }
    // One that they may not see releases nothing.
    ensures secret_turn { Releases handing a_table good_start (Turn (host_id 0)) [] }
    ensures secret_turn_more { ¬ (Releases handing a_table good_start (Turn (host_id 0)) (pos 7 ∷ pos 8 ∷ [])) }
    // Nor does a host that misbehaves, or that runs nothing.
    ensures bad_host { released_at a_table bad_start (host_id 1) ≡ [] }
    ensures idle_host { released_at a_table good_start (host_id 1) ≡ [] }
    // Lists are alike of which one goes on where the other ends, and no others.
    ensures alike { OneIsFront (pos 7 ∷ pos 8 ∷ []) (pos 7 ∷ []) }
    ensures alike_more { ¬ (OneIsFront (pos 7 ∷ pos 8 ∷ []) (pos 8 ∷ [])) }
{}
