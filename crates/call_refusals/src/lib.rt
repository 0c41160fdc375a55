// What each call is refused with: the tests of its arguments in the order of the table of refusals.
#![tactic(auto)]

ghost use Rattle.std.specs.Prelude.{◌≡◌, []};
ghost use Rattle.model.specs.Job.{priced, of_lent};
ghost use Rattle.model.specs.Refusals.{asking, naming, looking, moving, lengthening, tableless, refusal, Weigh, StartPlan, Rebuild, Exhaustive, Solve, Arrive, Cancel, View, MoveStop, Roadworks, unpriced, running};
ghost use Rattle.model.specs.Numbers.{refused};
ghost use Rattle.call_refusals.specs.Order.{of_shape, of_entries, of_road, of_job, of_numbers};
ghost use Rattle.distance.specs.Table.{Square};

use model::{Job, Move, Network, Prices, Refusal, Road, Settings};

// The first of 1 to 4 that applies, or none.
fn of_shape(network: &Network, plan: &[u32]) -> Result<(), Refusal>
    ensures { refused result ≡ of_shape network.now.vehicles.now network.now.stops.now network.now.locations network.now.distances.now plan.now }
{
    if call_tests::bad_vehicles(network.vehicles) {
        return Err(Refusal::Vehicles);
    }
    if call_tests::bad_stops(network.stops) {
        return Err(Refusal::Stops);
    }
    if call_tests::bad_table(network.locations, network.distances) {
        return Err(Refusal::Table);
    }
    if call_tests::bad_length(network.vehicles.len() / 2, network.stops.len(), plan) {
        return Err(Refusal::Lengths);
    }
    Ok(())
}

// The first of 6 and 7 that applies, or none.
fn of_entries(network: &Network) -> Result<(), Refusal>
    ensures { refused result ≡ of_entries network.now.vehicles.now network.now.stops.now network.now.locations network.now.distances.now }
{
    if call_tests::bad_locations(network.vehicles, network.stops, network.locations) {
        return Err(Refusal::Locations);
    }
    if call_tests::bad_distances(network.distances) {
        return Err(Refusal::Distances);
    }
    Ok(())
}

// What start_plan is refused with: 1 to 4, 6, 7, or none.
pub fn of_start_plan(network: &Network, plan: &[u32]) -> Result<(), Refusal>
    ensures { refused result ≡ refusal StartPlan (asking (priced network.now unpriced) plan.now []) }
{
    of_shape(network, plan)?;
    of_entries(network) // 6 and 7 come after 1 to 4
}

// The first of 1 to 4 and 6 to 8 that applies, or none.
fn of_job(job: &Job, plan: &[u32]) -> Result<(), Refusal>
    ensures { refused result ≡ of_job job.now.network.vehicles.now job.now.network.stops.now job.now.network.locations job.now.network.distances.now job.now.prices plan.now }
{
    of_start_plan(&job.network, plan)?;
    if call_tests::bad_prices(job.prices) {
        return Err(Refusal::Prices);
    }
    Ok(())
}

// What weigh is refused with: 1 to 4, 6 to 8, 11, or none.
pub fn of_weigh(job: &Job, plan: &[u32]) -> Result<(), Refusal>
    ensures { refused result ≡ refusal Weigh (asking (of_lent job.now) plan.now []) }
{
    of_job(job, plan)?;
    let vehicles = job.network.vehicles.len() / 2;
    let stops = job.network.stops.len();
    if !plan_form::is_plan(plan, vehicles, stops) {
        return Err(Refusal::Plan);
    }
    Ok(())
}

// What rebuild, and two_opt with its two stops as a list, is refused with: 1 to 4, 6 to 8, 11, 12, or none.
pub fn of_rebuild(job: &Job, plan: &[u32], given: &[u32]) -> Result<(), Refusal>
    ensures { refused result ≡ refusal Rebuild (asking (of_lent job.now) plan.now given.now) }
{
    of_weigh(job, plan)?;
    if call_tests::bad_given(job.network.stops.len(), given) {
        return Err(Refusal::Given);
    }
    Ok(())
}

// What exhaustive or pruned is refused with: 1 to 4, 6 to 8, 13, or none. It and of_weigh differ in their last test and its refusal, as their
// tables do.
pub fn of_exhaustive(job: &Job, plan: &[u32]) -> Result<(), Refusal>
    ensures { refused result ≡ refusal Exhaustive (asking (of_lent job.now) plan.now []) }
{
    of_job(job, plan)?;
    if call_tests::too_large(job.network.vehicles.len() / 2, job.network.stops.len()) {
        return Err(Refusal::TooLarge);
    }
    Ok(())
}

// The first of 8 to 10 that applies, or none.
fn of_numbers(prices: Prices, settings: &Settings) -> Result<(), Refusal>
    ensures { refused result ≡ of_numbers prices settings.now.smoothing settings.now.limit }
{
    if call_tests::bad_prices(prices) {
        return Err(Refusal::Prices);
    }
    if call_tests::bad_smoothing(settings.smoothing) {
        return Err(Refusal::Smoothing);
    }
    if call_tests::bad_limit(settings.limit) {
        return Err(Refusal::Limit);
    }
    Ok(())
}

// What solve is refused with: 1 to 10, or none.
pub fn of_solve(job: &Job, settings: &Settings, plan: &[u32]) -> Result<(), Refusal>
    ensures { refused result ≡ refusal Solve (running (of_lent job.now) settings.now.smoothing settings.now.limit settings.now.draws.now plan.now) }
{
    of_shape(&job.network, plan)?;
    if call_tests::bad_draws(settings.draws) {
        return Err(Refusal::Draws);
    }
    of_entries(&job.network)?;
    of_numbers(job.prices, settings)
}

// The tests of rebuild, with a set of live stops and one stop: 1 to 4, 6 to 8, 11, 12, or none.
fn of_live(job: &Job, plan: &[u32], live: u64, stop: u32) -> Result<(), Refusal>
    ensures { refused result ≡ refusal Rebuild (naming (of_lent job.now) plan.now live stop) }
{
    of_weigh(job, plan)?;
    let held = solution::hold(
        job.network.vehicles.len() / 2,
        job.network.stops.len(),
        plan,
    );
    if call_tests::bad_live(live, &held) {
        return Err(Refusal::Plan);
    }
    let one = [stop];
    if call_tests::bad_given(job.network.stops.len(), &one) {
        return Err(Refusal::Given);
    }
    Ok(())
}

// What arrive is refused with: 1 to 4, 6 to 8, 11, 12, 16, or none. It and of_cancel are two functions, as the tables of their calls are two: one
// function of both would be handed its last test and the refusal of that test, and would read no plainer.
pub fn of_arrive(job: &Job, plan: &[u32], live: u64, stop: u32) -> Result<(), Refusal>
    ensures { refused result ≡ refusal Arrive (naming (of_lent job.now) plan.now live stop) }
{
    of_live(job, plan, live, stop)?;
    if call_tests::bad_arrival(live, stop) {
        return Err(Refusal::Live);
    }
    Ok(())
}

// What cancel is refused with: 1 to 4, 6 to 8, 11, 12, 17, or none.
pub fn of_cancel(job: &Job, plan: &[u32], live: u64, stop: u32) -> Result<(), Refusal>
    ensures { refused result ≡ refusal Cancel (naming (of_lent job.now) plan.now live stop) }
{
    of_live(job, plan, live, stop)?;
    if call_tests::bad_cancellation(live, stop) {
        return Err(Refusal::NotLive);
    }
    Ok(())
}

// What view is refused with: 1, 2, 4, 11, 15, or none.
pub fn of_view(
    vehicles: &[u32],
    stops: &[u32],
    plan: &[u32],
    vans: u32,
    seen: &[u32],
) -> Result<(), Refusal>
    ensures { refused result ≡ refusal View (looking (tableless vehicles.now stops.now) plan.now vans seen.now) }
{
    if call_tests::bad_vehicles(vehicles) {
        return Err(Refusal::Vehicles);
    }
    if call_tests::bad_stops(stops) {
        return Err(Refusal::Stops);
    }
    let v = vehicles.len() / 2;
    let n = stops.len();
    if call_tests::bad_length(v, n, seen) {
        return Err(Refusal::Lengths);
    }
    if call_tests::bad_length(v, n, plan) {
        return Err(Refusal::Lengths);
    }
    if !plan_form::is_plan(plan, v, n) {
        return Err(Refusal::Plan);
    }
    if van_tests::bad_vans(v, vans) {
        return Err(Refusal::Vans);
    }
    Ok(())
}

// What move_stop is refused with: 1 to 4, 6 to 8, 11, 12, 15, or none.
pub fn of_move_stop(job: &Job, plan: &[u32], vans: u32, m: Move) -> Result<(), Refusal>
    ensures { refused result ≡ refusal MoveStop (moving (of_lent job.now) plan.now vans m) }
{
    let given = [m.stop];
    of_rebuild(job, plan, &given)?;
    if van_tests::bad_vans(job.network.vehicles.len() / 2, vans) {
        return Err(Refusal::Vans);
    }
    let held = solution::hold(
        job.network.vehicles.len() / 2,
        job.network.stops.len(),
        plan,
    );
    if van_tests::bad_move(&held, vans, m) {
        Err(Refusal::Vans)
    } else {
        Ok(())
    }
}

// The first of 6 and 7 that applies where a road gets longer, or none. The road is of the table before its entry is looked up.
fn of_road(network: &Network, road: Road) -> Result<(), Refusal>
    requires { Square network.now.locations network.now.distances.now }
    ensures { refused result ≡ of_road network.now.vehicles.now network.now.stops.now network.now.locations network.now.distances.now road }
{
    if road_tests::bad_road(network.locations, road) {
        return Err(Refusal::Locations);
    }
    of_entries(network)?;
    if road_tests::bad_entry(network, road) {
        Err(Refusal::Distances)
    } else {
        Ok(())
    }
}

// What roadworks is refused with: 1 to 4, 6 to 8, 11, or none.
pub fn of_roadworks(job: &Job, plan: &[u32], road: Road) -> Result<(), Refusal>
    ensures { refused result ≡ refusal Roadworks (lengthening (of_lent job.now) plan.now road) }
{
    of_shape(&job.network, plan)?;
    of_road(&job.network, road)?;
    if call_tests::bad_prices(job.prices) {
        return Err(Refusal::Prices);
    }
    let v = job.network.vehicles.len() / 2;
    if !plan_form::is_plan(plan, v, job.network.stops.len()) {
        return Err(Refusal::Plan);
    }
    Ok(())
}
