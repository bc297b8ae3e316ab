//! Whose turn it is.
ghost use Rattle.std.specs.Prelude.{◌≡◌, ◌≢◌, ◌<◌, ℕ, length, Some, None, true, get_or, is_some, slice_get, IfSome, []};
ghost use Rattle.rand_pcg.specs.Pcg.{pcg32};
ghost use Rattle.seeded_turns.specs.Drawn.{able, chosen, drawn, next_schedule};
ghost use Rattle.seeded_turns.specs.Listed.{AreListed, listed_count};

use crate::machine::Machine;
use crate::schedule::Schedule;
use rand_core::utils::NextWord;
use rand_pcg::Lcg64Xsh32;

/// So many of the actors that can step are listed, the first ones.
const LISTED: usize = 256;

/// Lists an actor at a place, if it is one of the first places.
fn list_at(listed: &mut [u32; LISTED], place: u32, actor: u32)
    ensures own { place < listed_count → get_or listed.new place 0 ≡ actor }
    ensures others { (k : ℕ) → k ≢ place → get_or listed.new k 0 ≡ get_or listed.old k 0 }
{
    let at = place as usize;
    if at < LISTED {
        listed[at] = actor;
    }
}

/// How many actors can step. The first of them are listed in an array, so that a turn takes no memory.
fn list_able<M: Machine>(machine: &M, survey: &M::Survey, listed: &mut [u32; LISTED]) -> u32
    requires holds { M.Holds machine.now }
    requires told { M.Tells machine.now survey.now }
    ensures count { result ≡ length (able (M.can machine.now) (M.actors machine.now)) }
    ensures listed { AreListed (able (M.can machine.now) (M.actors machine.now)) listed.new }
{
    let mut seen = 0;
    for actor in 0..machine.actors() {
        if machine.due_by(survey, actor).is_some() {
            list_at(listed, seen, actor);
            seen += 1;
        }
    }
    seen
}

/// The actor at a place among those that can step, and what is due for it. It asks each up to that one.
fn able_at<M: Machine>(machine: &M, survey: &M::Survey, place: u32) -> Option<(u32, M::Kind)>
    requires holds { M.Holds machine.now }
    requires told { M.Tells machine.now survey.now }
    requires within { place < length (able (M.can machine.now) (M.actors machine.now)) }
    ensures some { is_some result ≡ true }
    ensures due { IfSome result (λ x. (slice_get (able (M.can machine.now) (M.actors machine.now)) place ≡ Some x.0)
        × (x.0 < M.actors machine.now) × M.IsDue machine.now x.0 x.1) }
{
    let mut left = place;
    for actor in 0..machine.actors() {
        if let Some(due) = machine.due_by(survey, actor) {
            if left == 0 {
                return Some((actor, due));
            }
            left -= 1;
        }
    }
    None
}

/// An actor, with what is due for it, if it can step.
fn with_due<M: Machine>(machine: &M, survey: &M::Survey, actor: u32) -> Option<(u32, M::Kind)>
    requires holds { M.Holds machine.now }
    requires told { M.Tells machine.now survey.now }
    requires within { actor < M.actors machine.now }
    ensures some { is_some result ≡ M.can machine.now actor }
    ensures due { IfSome result (λ x. (x.0 ≡ actor) × M.IsDue machine.now x.0 x.1) }
{
    match machine.due_by(survey, actor) {
        Some(due) => Some((actor, due)),
        None => None,
    }
}

/// The actor at a place among those that can step, and what is due for it. One that is listed isn't looked for.
fn find_able<M: Machine>(
    machine: &M,
    survey: &M::Survey,
    listed: &[u32; LISTED],
    place: u32,
) -> Option<(u32, M::Kind)>
    requires holds { M.Holds machine.now }
    requires told { M.Tells machine.now survey.now }
    requires listed { AreListed (able (M.can machine.now) (M.actors machine.now)) listed.now }
    requires within { place < length (able (M.can machine.now) (M.actors machine.now)) }
    ensures some { is_some result ≡ true }
    ensures due { IfSome result (λ x. (slice_get (able (M.can machine.now) (M.actors machine.now)) place ≡ Some x.0)
        × (x.0 < M.actors machine.now) × M.IsDue machine.now x.0 x.1) }
{
    let at = place as usize;
    if at < LISTED {
        with_due(machine, survey, listed[at])
    } else {
        able_at(machine, survey, place)
    }
}

/// The first of the actors that can step, and what is due for it. Who comes behind it isn't asked.
fn first_able<M: Machine>(machine: &M) -> Option<(u32, M::Kind)>
    requires { M.Holds machine.now }
    ensures none { result ≡ None → able (M.can machine.now) (M.actors machine.now) ≡ [] }
    ensures some { IfSome result (λ x. (slice_get (able (M.can machine.now) (M.actors machine.now)) 0 ≡ Some x.0)
        × (x.0 < M.actors machine.now) × M.IsDue machine.now x.0 x.1) }
{
    for actor in 0..machine.actors() {
        if let Some(kind) = machine.due(actor) {
            return Some((actor, kind));
        }
    }
    None
}

/// The actor that a generator draws of those that can step, and what is due for it. Where nobody can, no word is drawn.
fn draw_able<M: Machine>(machine: &M, generator: &mut Lcg64Xsh32) -> Option<(u32, M::Kind)>
    requires { M.Holds machine.now }
    ensures none { result ≡ None → (able (M.can machine.now) (M.actors machine.now) ≡ []) × (generator.new ≡ generator.old) }
    ensures some { IfSome result (λ x. (generator.new ≡ (pcg32 generator.old).1)
        × (drawn generator.old (able (M.can machine.now) (M.actors machine.now)) ≡ Some x.0)
        × (x.0 < M.actors machine.now) × M.IsDue machine.now x.0 x.1) }
{
    let survey = machine.survey();
    let mut listed = [0; LISTED];
    let count = list_able(machine, &survey, &mut listed);
    if count == 0 {
        return None;
    }
    let place = generator.next_word() % count;
    find_able(machine, &survey, &listed, place)
}

/// The actor whose turn it is, and what is due for it, if anybody can step. Where nobody can, no word is drawn.
pub(crate) fn choose<M: Machine>(machine: &M, schedule: &mut Schedule) -> Option<(u32, M::Kind)>
    requires { M.Holds machine.now }
    ensures none { result ≡ None → (able (M.can machine.now) (M.actors machine.now) ≡ []) × (schedule.new ≡ schedule.old) }
    ensures some { IfSome result (λ x. (schedule.new ≡ next_schedule schedule.old)
        × (chosen schedule.old (able (M.can machine.now) (M.actors machine.now)) ≡ Some x.0)
        × (x.0 < M.actors machine.now) × M.IsDue machine.now x.0 x.1) }
{
    match schedule {
        Schedule::Order => first_able(machine),
        Schedule::Seed(generator) => draw_able(machine, generator),
    }
}
