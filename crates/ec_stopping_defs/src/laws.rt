//! What holds of calls that are cut at their requests, and of places in a log, as the contracts of functions that do
//! nothing.

ghost use Rattle.std.specs.Prelude.{◌≡◌, ℕ, List, [], ◌∷◌, ◌++◌, length};
ghost use Rattle.ec_arguments.specs.Arguments.{Cut};
ghost use Rattle.ec_link.specs.declared.logged.Logged.{Logged};
ghost use Rattle.ec_meaning_defs.specs.evaluation.State.{Answer, State};
ghost use Rattle.ec_meaning_defs.specs.evaluation.Agree.{Grows};
ghost use Rattle.ec_meaning_defs.specs.observed.Observed.{answers_in};
ghost use Rattle.ec_call_defs.specs.Growth.{state_of};
ghost use Rattle.ec_call_defs.specs.Library.{cut_done};
ghost use Rattle.ec_call_defs.specs.Outcomes.{waiting, over, next};
ghost use Rattle.ec_stopping_defs.specs.Places.{AllWithin, at_places};
ghost use Rattle.ec_stopping_defs.specs.Resuming.{Asking, asks_for, going, is_asked_over, residual, resumed, started, stepped};
ghost use Rattle.ec_stopping_defs.specs.Saying.{OnlySays, IsNearer, exchange_of, requests_left};

/// What a call does is what it does up to its first request, and then what it still has to do from there on, which is a
/// function of what it keeps and of the state. That waits with the request where there is no answer; with the next
/// answer it is the next part of the call, and then what the call still has to do behind that. It only adds to what was
/// printed and said.
pub fn calls_go_on()
    ensures cut { (c : Cut ℕ) (s : State) → cut_done c s ≡ next (started c s) (going c.line) }
    ensures waits { (line : ℕ) (u : Asking) (s : State) → residual line u (record s { answers = [] })
        ≡ over (waiting (is_asked_over u) (asks_for u)) (record s { answers = [] }) }
    ensures parts { (line : ℕ) (u : Asking) (a : Answer) (more : List Answer) (s : State)
        → residual line u (record s { answers = a ∷ more })
        ≡ next (resumed line u a (record s { answers = more })) (going line) }
    ensures steps { (line : ℕ) (u : Asking) (s : State)
        → residual line u s ≡ next (stepped line u s) (going line) }
    ensures steps_wait { (line : ℕ) (u : Asking) (s : State) → stepped line u (record s { answers = [] })
        ≡ over (waiting (is_asked_over u) (asks_for u)) (record s { answers = [] }) }
    ensures steps_take { (line : ℕ) (u : Asking) (a : Answer) (more : List Answer) (s : State)
        → stepped line u (record s { answers = a ∷ more })
        ≡ resumed line u a (record s { answers = more }) }
    ensures adds { (line : ℕ) (u : Asking) (s : State) → Grows s (state_of (residual line u s)) }
{}

/// Up to its first request a call says nothing, and each part behind a request says that one exchange alone. No part
/// prints anything, takes a turn or a further answer; and one that asks further has fewer requests left.
pub fn parts_ask_once()
    ensures starts { (c : Cut ℕ) (s : State) → OnlySays [] s (state_of (started c s)) }
    ensures resumes { (line : ℕ) (u : Asking) (a : Answer) (s : State)
        → OnlySays (exchange_of u a ∷ []) s (state_of (resumed line u a s)) }
    ensures nears { (line : ℕ) (u : Asking) (s : State)
        → IsNearer (requests_left u) (stepped line u s) }
{}

/// What stands at places in a log stays, whoever's exchanges come behind it; the place of the next exchange is the length
/// of the log before it.
pub fn places_stay()
    ensures stays { (log more : List Logged) (places : List ℕ) → AllWithin (length log) places
        → at_places (log ++ more) places ≡ at_places log places }
    ensures still_within { (log more : List Logged) (places : List ℕ) → AllWithin (length log) places
        → AllWithin (length (log ++ more)) places }
    ensures next { (log : List Logged) (x : Logged) (places : List ℕ) → AllWithin (length log) places
        → at_places (log ++ x ∷ []) (places ++ length log ∷ []) ≡ at_places log places ++ x ∷ [] }
    ensures next_within { (log : List Logged) (x : Logged) (places : List ℕ)
        → AllWithin (length log) places
        → AllWithin (length (log ++ x ∷ [])) (places ++ length log ∷ []) }
    ensures answers { (log : List Logged) (x : Logged) (places : List ℕ) → AllWithin (length log) places
        → answers_in (at_places (log ++ x ∷ []) (places ++ length log ∷ []))
        ≡ answers_in (at_places log places) ++ (x.slot, x.reply) ∷ [] }
{}
