//! The planner for C: a static library with two calls, which c/planner.h declares.
#![tactic(auto)]

ghost use Rattle.std.specs.Prelude.{◌≡◌, ◌↔◌, ◌<◌, ◌≤◌, length, drop, Err, IsOk, IfOk, IfErr};
ghost use Rattle.schedule.specs.Certificate.{listed};
ghost use Rattle.schedule.specs.InForce.{horizon, InForce, Same, settings_in_force};
ghost use Rattle.schedule.specs.Theory.{Blocked};
ghost use Rattle.planner.specs.Plannable.{IsPlannable};
ghost use Rattle.planner.specs.Blocks.{open_demands, critical_blocks};
ghost use Rattle.planner_c.specs.Demands.{as_demands};
ghost use Rattle.planner_c.specs.Found.{found_blocks};

use planner::{Demand, Demands, HORIZON, MOST_DEMANDS, critical_blocks, settings};

/// A demand: a job seen from now, with its window [from, to) in ticks from now, and its work left.
// Of the same fields as `Demand`, which has a `Model`: no such type crosses to C.
#[repr(C)]
#[derive(Clone, Copy)]
pub struct PlannerDemand {
    /// The first tick of the window.
    pub from: u16,
    /// The tick after the last of the window.
    pub to: u16,
    /// The units of work that are left.
    pub units: u16,
}

/// A setting for each tick from now on.
#[repr(C)]
pub struct PlannerSettingsList {
    /// The setting of each tick, in units of work in a tick; the first is that of the tick that comes next.
    pub settings: [u32; HORIZON],
}

/// A critical block, in ticks from now. Its exact speed is its work over its length.
#[repr(C)]
#[derive(Clone, Copy)]
pub struct PlannerBlock {
    /// The units of work.
    pub work: u32,
    /// How many ticks the block has.
    pub length: u16,
    /// The first tick.
    pub from: u16,
    /// The tick after the last.
    pub to: u16,
}

/// Critical blocks, in the order of the rounds: the first `count` of the list.
#[repr(C)]
pub struct PlannerBlockList {
    /// How many blocks there are: at most 64.
    pub count: usize,
    /// The blocks; what stands after the first `count` says nothing.
    pub blocks: [PlannerBlock; MOST_DEMANDS],
}

// The demands of C as the planner's, written to a list that is as long.
fn copy(demands: &[PlannerDemand], list: &mut [Demand])
    requires { length list.old ≡ length demands.now }
    ensures { list.new ≡ as_demands demands.now }
{
    for (index, &PlannerDemand { from, to, units }) in demands.iter().enumerate() {
        list[index] = Demand { from, to, units };
    }
}

// The demands of C as a list that can be planned for, or the number that tells why they are none.
fn plannable<'a>(
    demands: &[PlannerDemand],
    memory: &'a mut [Demand; MOST_DEMANDS],
) -> Result<Demands<'a>, u32>
    ensures many { result ≡ Err 1 ↔ MOST_DEMANDS < length demands.now }
    ensures planned { IsOk result ↔ IsPlannable (as_demands demands.now) }
    ensures otherwise { IfErr result (λ why. (0 < why) × (why ≤ 2)) }
    ensures demands { IfOk result (λ list. list ≡ as_demands demands.now) }
{
    if demands.len() > MOST_DEMANDS {
        return Err(1);
    }
    let list = &mut memory[..demands.len()];
    copy(demands, list);
    Demands::new(list).ok_or(2)
}

/// Writes the settings in force for these demands and answers 0, or answers why it writes none.
///
/// C passes the demands as a pointer, then their number. Neither pointer is null, even for no demand, and `found` lies
/// apart from the demands.
///
/// # Refusals
///
/// `found` is as it was then.
///
/// - 1: there are more than 64 demands.
/// - 2: a demand with units has a window that is empty or ends after 256 ticks, or the demands are not in order of
///   deadline.
///
/// ```text
/// // tests/planner_h.sh
/// struct planner_demand demands[2] = {{0, 2, 3}, {0, 3, 1}};
/// struct planner_settings_list settings;
/// planner_settings(demands, 2, &settings); // 0: the settings 2, 1, 1, and then 0
/// ```
#[unsafe(no_mangle)]
pub extern "C" fn planner_settings(
    demands: &[PlannerDemand],
    found: &mut PlannerSettingsList,
) -> u32
    ensures many { result ≡ 1 ↔ MOST_DEMANDS < length demands.now }
    ensures planned { result ≡ 0 ↔ IsPlannable (as_demands demands.now) }
    ensures otherwise { result ≤ 2 }
    ensures settings { result ≡ 0
        → Same horizon (listed found.new.settings) (settings_in_force (as_demands demands.now)) }
    ensures in_force { result ≡ 0 → InForce horizon (as_demands demands.now) (listed found.new.settings) }
    ensures unchanged { 0 < result → found.new ≡ found.old }
{
    let mut memory = [Demand::default(); MOST_DEMANDS];
    let list = match plannable(demands, &mut memory) {
        Ok(list) => list,
        Err(why) => return why,
    };
    found.settings = settings(&list);
    0
}

impl PlannerBlockList {
    // Writes these blocks to the head of the list.
    fn write(&mut self, blocks: &[planner::RelativeBlock])
        requires { length blocks.now ≤ MOST_DEMANDS }
        ensures count { self.new.count ≡ length blocks.now }
        ensures blocks { found_blocks self.new ≡ blocks.now }
        ensures rest { drop self.new.count self.new.blocks ≡ drop self.new.count self.old.blocks }
    {
        for (index, block) in blocks.iter().enumerate() {
            let (work, length) = block.speed;
            self.blocks[index] = PlannerBlock {
                work,
                length,
                from: block.from,
                to: block.to,
            };
        }
        self.count = blocks.len();
    }
}

/// Writes the critical blocks of the demands that have work left and answers 0, or answers why it writes none.
///
/// The pointers are as for `planner_settings`.
///
/// # Refusals
///
/// `found` is as it was then, and the numbers are those of `planner_settings`.
///
/// ```text
/// // tests/planner_h.sh, with the demands of `planner_settings`
/// struct planner_block_list blocks;
/// planner_blocks(demands, 2, &blocks); // 0: two blocks, 3 units in the ticks 0 and 1, then 1 unit in tick 2
/// ```
#[unsafe(no_mangle)]
pub extern "C" fn planner_blocks(demands: &[PlannerDemand], found: &mut PlannerBlockList) -> u32
    ensures many { result ≡ 1 ↔ MOST_DEMANDS < length demands.now }
    ensures planned { result ≡ 0 ↔ IsPlannable (as_demands demands.now) }
    ensures otherwise { result ≤ 2 }
    ensures count { result ≡ 0 → found.new.count ≡ length (critical_blocks (as_demands demands.now)) }
    ensures blocks { result ≡ 0 → found_blocks found.new ≡ critical_blocks (as_demands demands.now) }
    ensures rest { result ≡ 0 → drop found.new.count found.new.blocks ≡ drop found.new.count found.old.blocks }
    ensures critical { result ≡ 0 → Blocked horizon (open_demands (as_demands demands.now)) }
    ensures unchanged { 0 < result → found.new ≡ found.old }
{
    let mut memory = [Demand::default(); MOST_DEMANDS];
    let list = match plannable(demands, &mut memory) {
        Ok(list) => list,
        Err(why) => return why,
    };
    let blocks = critical_blocks(&list);
    found.write(blocks.list());
    0
}
