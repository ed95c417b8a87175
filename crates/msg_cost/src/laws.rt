//! Laws of costs, for whoever reasons about plans. The calls do nothing.

ghost use Rattle.std.specs.Prelude.{◌≡◌, ◌<◌, ◌^◌, ◌↔◌, ◌+◌, ℕ, min, Option, IsTrue};
ghost use Rattle.js_base.specs.declared.ids.HostId.{HostId};
ghost use Rattle.js_base.specs.declared.ids.StmtId.{StmtId};
ghost use Rattle.label_lattice.specs.declared.label.Label.{Label};
ghost use Rattle.label_lattice.specs.Label.{IsTrustedBy};
ghost use Rattle.host_decl.specs.Hosts.{HostsShape, AreHosts};
ghost use Rattle.jif_tree.specs.WellNumbered.{IsWellNumbered};
ghost use Rattle.jif_tree.specs.Limits.{IsWithinLimits};
ghost use Rattle.need_labels.specs.Labelled.{Labelled};
ghost use Rattle.need_labels.specs.Needs.{NeedsShape};
ghost use Rattle.need_labels.specs.Plan.{PlanShape};
ghost use Rattle.msg_cost.specs.Cost.{plan_cost};
ghost use Rattle.msg_cost.specs.CostExamples.{lent_in_a_loop, loop_needs, loop_hosts, loop_plan};
ghost use Rattle.msg_cost.specs.CostExamples.{handed_on, handed_needs, handed_hosts, handed_plan};
ghost use Rattle.msg_cost.specs.CostExamples.{told_ahead, told_needs, told_hosts, told_plan};
ghost use Rattle.msg_cost.specs.CostExamples.{called, called_needs, called_hosts, called_plan};
ghost use Rattle.msg_cost.specs.CostExamples.{forwarded, forwarded_needs, forwarded_hosts, forwarded_plan};
ghost use Rattle.msg_cost.specs.CostExamples.{nested, nested_needs, nested_hosts, nested_plan};
ghost use Rattle.msg_cost.specs.CostExamples.{plain_hosts, added, added_needs, added_plan, apart_plan};
ghost use Rattle.msg_cost.specs.CostExamples.{released, first_plan, second_plan};
ghost use Rattle.msg_cost.specs.CostExamples.{read_in_a_loop, read_needs, read_plan};
ghost use Rattle.msg_cost.specs.CostExamples.{read_ahead, ahead_needs, ahead_plan, near_hosts};
ghost use Rattle.msg_cost.specs.CostExamples.{lent_value, lent_needs, lent_plan};
ghost use Rattle.msg_cost.specs.CostLaws.{StandsOn};
ghost use Rattle.msg_cost.specs.Moves.{is_trusted_by, planned_of};
ghost use Rattle.msg_cost.specs.Pieces.{pieces_cost, program_pieces};
ghost use Rattle.msg_cost.specs.Terms.{inside};

/// Laws of the costs of plans.
pub fn cost_laws()
    // A plan that puts everything on one host costs nothing.
    ensures own { (labelled : Labelled) (needs : NeedsShape) (hosts : HostsShape) (plan : PlanShape) (host : HostId) →
        AreHosts hosts → IsWellNumbered labelled.program → StandsOn (planned_of labelled needs hosts plan) host →
        plan_cost labelled needs hosts plan ≡ 0 }
    // The cost is the sum of the costs of pieces, each of which depends on the hosts of few parts.
    // They are counted for a statement that may be moved, whichever it is.
    ensures by_pieces { (labelled : Labelled) (needs : NeedsShape) (hosts : HostsShape) (plan : PlanShape)
        (moved : Option StmtId) → plan_cost labelled needs hosts plan
        ≡ pieces_cost (planned_of labelled needs hosts plan) moved (program_pieces labelled.program) }
    // The cost of a program within the limits fits a number of 64 bits.
    ensures fits { (labelled : Labelled) (needs : NeedsShape) (hosts : HostsShape) (plan : PlanShape) →
        AreHosts hosts → IsWithinLimits labelled.program → plan_cost labelled needs hosts plan < 2 ^ 64 }
    // The test of trust means trust.
    ensures trusted { (label : Label) (word : ℕ) → IsTrue (is_trusted_by label word) ↔ IsTrustedBy label word }
    // One loop deeper the weight is eight to a power that is greater by one, and six counts at most.
    ensures weights { (depth : ℕ) → inside (8 ^ min depth 6) ≡ 8 ^ min (depth + 1) 6 }
{}

/// What small programs cost.
pub fn cost_examples()
    // A segment in a loop that is lent the token: the way there, a read, and the way back, eight times. The host that
    // gets the token back has it before, so it need not be told.
    ensures lent { plan_cost lent_in_a_loop loop_needs loop_hosts loop_plan ≡ 32 }
    // A statement that is handed the token: the way there, a read, and the way from the end of `main` to its home.
    ensures handed { plan_cost handed_on handed_needs handed_hosts handed_plan ≡ 4 }
    // A segment whose token goes to the host of what follows: that host is told before, there and back (2), then the
    // way there (1), the way on (1), and the way from the end of `main` to its home (1).
    ensures told { plan_cost told_ahead told_needs told_hosts told_plan ≡ 5 }
    // A call of a method on another host, where a message there costs 3 and one back 5: the way there (3), with which
    // the parameter rides, the way back (5), and the result, there and back (8).
    ensures called { plan_cost called called_needs called_hosts called_plan ≡ 16 }
    // A local that another host reads: it rides with the way there (3), and then the way from the end of `main` to its
    // home (5). Where each message costs 1 that is 2.
    ensures forwarded { plan_cost forwarded forwarded_needs forwarded_hosts forwarded_plan ≡ 8 }
    ensures rides { plan_cost forwarded forwarded_needs plain_hosts forwarded_plan ≡ 2 }
    // A parameter that the home of its method reads: the way there, and the way back. Where another host than the home
    // reads it, it is sent (2), then the way to that host, and the way back.
    ensures added { plan_cost added added_needs plain_hosts added_plan ≡ 2 }
    ensures apart { plan_cost added added_needs plain_hosts apart_plan ≡ 4 }
    // A field is written on its host, to which the value rides, or from another one, there and back.
    ensures first { plan_cost released forwarded_needs plain_hosts first_plan ≡ 2 }
    ensures second { plan_cost released forwarded_needs plain_hosts second_plan ≡ 2 }
    // A lent segment in a loop, which gets the token back where it came from: a value rides with the way there, so it
    // is the way there and the way back, eight times.
    ensures looped { plan_cost read_in_a_loop read_needs loop_hosts read_plan ≡ 16 }
    // The same with two hosts behind it: the way there, with which the value rides, the way back, the way on, and the
    // way home.
    ensures near { plan_cost read_ahead ahead_needs near_hosts ahead_plan ≡ 4 }
    // Where the host of what follows gets the token back, nothing rides: that host is told before (2), the value is
    // sent, there and back (11), then the way there, the way on, and the way home.
    ensures asked { plan_cost read_ahead ahead_needs told_hosts ahead_plan ≡ 16 }
    // What a lent segment gives does not ride: the way there, the value there and back (2), the way back, the way on,
    // and the way home.
    ensures stays { plan_cost lent_value lent_needs near_hosts lent_plan ≡ 6 }
    // A loop in a loop: a read for the outer guard, there and back eight times (16), and a write in the inner loop,
    // there and back 64 times (128).
    ensures nested { plan_cost nested nested_needs nested_hosts nested_plan ≡ 144 }
{}
