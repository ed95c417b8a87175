//! What holds of every world that events lead to, whichever hosts misbehave. The calls do nothing: their contracts are
//! the laws.

ghost use Rattle.std.specs.Prelude.{◌≡◌, ◌≢◌, ℕ, ℤ, ◌<◌, ◌-◌, ◌^◌, pos, [], ◌∷◌, ◌++◌, Some, IsSome, List, All};
ghost use Rattle.std.specs.Prelude.{◌==◌, slice_get, slice_index};
ghost use Rattle.std.specs.Int.{bit_at};
ghost use Rattle.js_base.specs.declared.ids.HostId.{HostId};
ghost use Rattle.js_base.specs.declared.ids.RequestId.{RequestId};
ghost use Rattle.capability.specs.declared.token.Token.{Token};
ghost use Rattle.ics_stack.specs.declared.stack.StackEntry.{StackEntry};
ghost use Rattle.host_code.specs.declared.message.Message.TheVariants as message;
ghost use Rattle.host_code.specs.Code.{CodeShape, halt};
ghost use Rattle.host_code.specs.Sound.{IsHost, IsSoundCode};
ghost use Rattle.host_code.specs.Thread.{WaitingShape};
ghost use Rattle.host_core.specs.Host as host_state;
ghost use Rattle.host_decl.specs.Hosts.{HostShape};
ghost use Rattle.event_text.specs.declared.event.Event.{Event};
ghost use Rattle.event_text.specs.declared.event.Event.TheVariants.{Take, Turn, Act};
ghost use Rattle.net_world.specs.Fits.{ShapeFits, HasOwnToken};
ghost use Rattle.net_world.specs.Flying.{Flight};
ghost use Rattle.net_world.specs.World.{WorldShape, IsStep, IsRun, AreHostsOf, world_at_start, state_at, misbehaves};
ghost use Rattle.token_laws.specs.Holders.{TokenPlace, running_on, waiting_on, kept_on, in_flight, HoldsAt};
ghost use Rattle.token_laws.specs.Holders.{IsTokenHeld};
ghost use Rattle.token_laws.specs.Holders.{IsTokenSent, IsOld};
ghost use Rattle.token_laws.specs.Numbers.{CodeHasNumbers, RowsHaveNumbers, EventHasNumbers, WorldHasNumbers};
ghost use Rattle.token_laws.specs.Numbers.{MessageHasNumbers, MadeHasNumbers};
ghost use Rattle.token_laws.specs.Reached.{IsReached};
ghost use Rattle.token_laws.specs.Requests.{FlightSpot, IsUnderWay, WaitsFor};
ghost use Rattle.token_laws.specs.TokenExamples.{host_id, small, start, first_token, second_token, pushed, asked};
ghost use Rattle.token_laws.specs.TokenExamples.{asking, first_request, spot_of, answered, handing, bad_start, given};
ghost use Rattle.token_laws.specs.TokenExamples.{good_start, passed_on, presents, twice, riding, made_riding};

/// Which worlds are reached, for whoever goes from event to event: the laws below hold before and after each.
pub fn reached_laws()
    ensures start { (code : CodeShape) (rows : List HostShape) (bad : ℕ) (store : List (List ℤ)) →
        IsSoundCode code → AreHostsOf code rows →
        IsReached code rows bad store [] (world_at_start code rows bad store) }
    ensures more { (code : CodeShape) (rows : List HostShape) (bad : ℕ) (store : List (List ℤ))
        (events : List Event) (world after : WorldShape) (event : Event) →
        IsReached code rows bad store events world → HasOwnToken (world_at_start code rows bad store) event →
        IsStep code world event after → IsReached code rows bad store (events ++ event ∷ []) after }
    // The same hosts misbehave as at the start.
    ensures misbehaving { (code : CodeShape) (rows : List HostShape) (bad : ℕ) (store : List (List ℤ))
        (events : List Event) (world : WorldShape) (host : HostId) →
        IsReached code rows bad store events world →
        misbehaves world host ≡ misbehaves (world_at_start code rows bad store) host }
    // Those are the hosts of the word's bits.
    ensures by_word { (code : CodeShape) (rows : List HostShape) (bad : ℕ) (store : List (List ℤ))
        (events : List Event) (world : WorldShape) (host : HostId) →
        IsReached code rows bad store events world → IsHost code host →
        misbehaves world host ≡ (bit_at bad host.0 == 1) }
    // So a token that a host makes up is its own then too.
    ensures own { (code : CodeShape) (rows : List HostShape) (bad : ℕ) (store : List (List ℤ))
        (events : List Event) (world : WorldShape) (event : Event) →
        IsReached code rows bad store events world → HasOwnToken (world_at_start code rows bad store) event →
        HasOwnToken world event }
    // The states and messages fit the code.
    ensures fits { (code : CodeShape) (rows : List HostShape) (bad : ℕ) (store : List (List ℤ))
        (events : List Event) (world : WorldShape) →
        IsReached code rows bad store events world → ShapeFits code world }
    // Both ends of a message in flight obey.
    ensures ends { (code : CodeShape) (rows : List HostShape) (bad : ℕ) (store : List (List ℤ))
        (events : List Event) (world : WorldShape) (from to : HostId) (place : ℕ) (flight : Flight) →
        IsReached code rows bad store events world → slice_get (world.flying from to) place ≡ Some flight →
        IsSome (state_at world from) × IsSome (state_at world to) }
{}

/// A token works once: what misbehaving hosts were not sent is held at one place at most, and what nobody holds is not
/// made again.
pub fn holder_laws()
    // A token of an obeying host that misbehaving hosts were not sent is held at one place at most.
    ensures one_holder { (code : CodeShape) (rows : List HostShape) (bad : ℕ) (store : List (List ℤ))
        (events : List Event) (world : WorldShape) (token : Token) (first second : TokenPlace) →
        IsReached code rows bad store events world → IsSome (state_at world token.host) → ¬ IsTokenSent world token →
        HoldsAt world token first → HoldsAt world token second → first ≡ second }
    // A token of an obeying host that is held was made before, entry 0 aside, whose kept token nobody was given.
    ensures held_old { (code : CodeShape) (rows : List HostShape) (bad : ℕ) (store : List (List ℤ))
        (events : List Event) (world : WorldShape) (token : Token) →
        IsReached code rows bad store events world → IsSome (state_at world token.host) → token.entry ≢ halt →
        IsTokenHeld world token → IsOld world token }
    // So was one that misbehaving hosts were sent.
    ensures sent_old { (code : CodeShape) (rows : List HostShape) (bad : ℕ) (store : List (List ℤ))
        (events : List Event) (world : WorldShape) (token : Token) →
        IsReached code rows bad store events world → IsSome (state_at world token.host) → token.entry ≢ halt →
        IsTokenSent world token → IsOld world token }
    // And the token of each entry on a stack.
    ensures own_old { (code : CodeShape) (rows : List HostShape) (bad : ℕ) (store : List (List ℤ))
        (events : List Event) (world : WorldShape) (host : HostId) (state : host_state.HostState) (place : ℕ)
        (on_stack : StackEntry) →
        IsReached code rows bad store events world → state_at world host ≡ Some state →
        slice_get state.entries place ≡ Some on_stack → IsOld world on_stack.token }
    // Two entries of a stack with the same token stand at the same place.
    ensures own { (code : CodeShape) (rows : List HostShape) (bad : ℕ) (store : List (List ℤ))
        (events : List Event) (world : WorldShape) (host : HostId) (state : host_state.HostState)
        (first second : ℕ) (one other : StackEntry) →
        IsReached code rows bad store events world → state_at world host ≡ Some state →
        slice_get state.entries first ≡ Some one → slice_get state.entries second ≡ Some other →
        one.token ≡ other.token → first ≡ second }
    // A token that was made before, that nobody holds and that misbehaving hosts were not sent, is so after any event.
    ensures gone { (code : CodeShape) (rows : List HostShape) (bad : ℕ) (store : List (List ℤ))
        (events : List Event) (world after : WorldShape) (event : Event) (token : Token) →
        IsReached code rows bad store events world → HasOwnToken world event → IsStep code world event after →
        IsOld world token → ¬ IsTokenHeld world token → ¬ IsTokenSent world token →
        (¬ IsTokenHeld after token) × ¬ IsTokenSent after token }
{}

/// A request is under way once, or its answer is, and a thread waits for it. The answer comes from the host that was
/// asked.
pub fn request_laws()
    // Of the requests in flight from an obeying host with a number, and the answers to it in flight to that host, there
    // is one at most.
    ensures one { (code : CodeShape) (rows : List HostShape) (bad : ℕ) (store : List (List ℤ))
        (events : List Event) (world : WorldShape) (host one other : HostId) (request : RequestId)
        (first second : FlightSpot) →
        IsReached code rows bad store events world → IsSome (state_at world host) →
        IsUnderWay world host one request first → IsUnderWay world host other request second → first ≡ second }
    // Where there is one, a thread of the host waits for the number, from the host that is asked or answers.
    ensures awaited { (code : CodeShape) (rows : List HostShape) (bad : ℕ) (store : List (List ℤ))
        (events : List Event) (world : WorldShape) (host other : HostId) (state : host_state.HostState)
        (request : RequestId) (spot : FlightSpot) →
        IsReached code rows bad store events world → state_at world host ≡ Some state →
        IsUnderWay world host other request spot → WaitsFor state request other }
    // No two threads of a host wait for the same number.
    ensures apart { (code : CodeShape) (rows : List HostShape) (bad : ℕ) (store : List (List ℤ))
        (events : List Event) (world : WorldShape) (host : HostId) (state : host_state.HostState)
        (first second : ℕ) (one other : WaitingShape) →
        IsReached code rows bad store events world → state_at world host ≡ Some state →
        slice_get state.waiting first ≡ Some one → slice_get state.waiting second ≡ Some other →
        one.request ≡ other.request → first ≡ second }
    // The number was given before.
    ensures counted { (code : CodeShape) (rows : List HostShape) (bad : ℕ) (store : List (List ℤ))
        (events : List Event) (world : WorldShape) (host : HostId) (state : host_state.HostState) →
        IsReached code rows bad store events world → state_at world host ≡ Some state →
        All (λ waiting. waiting.request.count < slice_index state.requests waiting.request.at) state.waiting }
{}

/// Numbers have 64 bits everywhere, where those of the code, of the fields at the start and of what misbehaving hosts
/// send do.
pub fn number_laws()
    ensures numbers { (code : CodeShape) (rows : List HostShape) (bad : ℕ) (store : List (List ℤ))
        (events : List Event) (world : WorldShape) →
        IsReached code rows bad store events world → CodeHasNumbers code → RowsHaveNumbers store →
        All EventHasNumbers events → WorldHasNumbers world }
{}

/// Who holds which tokens in small worlds, and what is under way there.
pub fn token_examples()
    // At the start the thread at `main` holds the token of the entry that ends the program.
    ensures held_at_start { HoldsAt start first_token (running_on (host_id 0)) }
    // Where it pushes an entry, that entry keeps the token, and the thread holds a new one.
    ensures pushes { IsRun small start (Turn (host_id 0) ∷ []) pushed }
    ensures keeps { HoldsAt pushed first_token (kept_on (host_id 0) 0) }
    ensures holds_new { HoldsAt pushed second_token (running_on (host_id 0)) }
    ensures holds_old_no_more { ¬ HoldsAt pushed first_token (running_on (host_id 0)) }
    // A token was made before where the count has passed its serial, and not where it has come to it.
    ensures made { IsOld pushed second_token }
    ensures not_yet_made { ¬ IsOld start second_token }
    ensures next_not_made { ¬ IsOld pushed (record second_token { serial = 1 }) }
    // A read of another host's field puts a request in flight, and its thread waits.
    ensures asks { IsRun small pushed (Turn (host_id 0) ∷ []) asked }
    ensures request_under_way { IsUnderWay asked (host_id 0) (host_id 1) first_request (spot_of 0 1 0) }
    ensures waits { WaitsFor asking.state first_request (host_id 1) }
    // The thread that waits holds its token still.
    ensures waits_with { HoldsAt asked second_token (waiting_on (host_id 0) 0) }
    // Once it is taken the answer is under way in its place, and no second one.
    ensures answers { IsRun small asked (Take (host_id 0) (host_id 1) 0 ∷ []) answered }
    ensures answer_under_way { IsUnderWay answered (host_id 0) (host_id 1) first_request (spot_of 1 0 0) }
    ensures asked_no_more { ¬ IsUnderWay answered (host_id 0) (host_id 1) first_request (spot_of 0 1 0) }
    ensures no_second_answer { ¬ IsUnderWay answered (host_id 0) (host_id 1) first_request (spot_of 1 0 1) }
    // A token that is handed over is in flight to a host that obeys.
    ensures passes_on { IsRun handing good_start (Turn (host_id 0) ∷ []) passed_on }
    ensures flies { HoldsAt passed_on first_token (in_flight (host_id 0) (host_id 1) 0) }
    // A misbehaving host that was sent a token may have it kept twice.
    ensures hands_over { IsRun handing bad_start (Turn (host_id 0) ∷ []) given }
    ensures sent { IsTokenSent given first_token }
    ensures presents_twice { IsRun handing given
        (Act (host_id 1) (host_id 0) presents ∷ Act (host_id 1) (host_id 0) presents ∷ []) twice }
    ensures kept_first { HoldsAt twice first_token (kept_on (host_id 0) 0) }
    ensures kept_second { HoldsAt twice first_token (kept_on (host_id 0) 1) }
    // The greatest number of 64 bits, and the next one.
    ensures narrow { MessageHasNumbers (message.Value first_request (pos (2 ^ 63 - 1))) }
    ensures wide { ¬ MessageHasNumbers (message.Value first_request (pos (2 ^ 63))) }
    // Each value that rides has to be one, the last as well as the first, also where a misbehaving host sends it.
    ensures rides_narrow { MessageHasNumbers (riding (pos (2 ^ 63 - 1))) }
    ensures rides_wide { ¬ MessageHasNumbers (riding (pos (2 ^ 63))) }
    ensures made_narrow { MadeHasNumbers (made_riding (pos (2 ^ 63 - 1))) }
    ensures made_wide { ¬ MadeHasNumbers (made_riding (pos (2 ^ 63))) }
{}
