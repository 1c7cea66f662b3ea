//! The segmentation parameters of a transport block.

ghost use Rattle.std.specs.Prelude.{◌≡◌, IfOk, MatchResult, Ok, Err};
ghost use Rattle.nr_crcattach.specs.Attachment.{attached_length};
ghost use Rattle.nr_segment.specs.CodeBlock.{numbers};
ghost use Rattle.nr_calls.specs.{Plan.plan_said, Plan.planned_said, Plan.nr_plan_of, inside.Words.planned_of};
ghost use Rattle.nr_calls.specs.Statuses.{HasValue, Returns, no_memory};

use crate::fault::Fault;
use crate::table::graph_number;
use nr_blockdesk::DeskFault;
use nr_crcattach::attached_len;
use nr_graphpick::pick;
use nr_segment::{Plan, plan};

// The most bits of a transport block.
pub(crate) const MOST_BITS: u32 = 1_310_720;

/// The segmentation parameters of a transport block (TS 38.212, 5.2.2 and 5.3.2).
#[repr(C)]
#[derive(Clone, Copy)]
pub struct NrPlan {
    /// The base graph: 1 or 2.
    pub graph: u32,
    /// B, the number of bits of the transport block with its CRC.
    pub b: u32,
    /// L, the number of CRC bits of each code block: 24, or 0 if there is only one.
    pub l: u32,
    /// C, the number of code blocks: 1 to 344.
    pub c: u32,
    /// K', the number of bits of each code block with its CRC but without fillers.
    pub kdash: u32,
    /// Kb, the number of base graph columns that hold the K' bits.
    pub kb: u32,
    /// Zc, the lifting size.
    pub z: u32,
    /// The set index of Zc: 0 to 7.
    pub set: u32,
    /// K, the number of bits of each code block with its fillers.
    pub k: u32,
    /// N, the number of bits that a code block is encoded into.
    pub n: u32,
    /// Reserved for later fields; it is written as 0.
    pub reserved: [u32; 2],
}

impl NrPlan {
    // The plan's numbers, as C has them.
    fn of(plan: &Plan) -> NrPlan
        ensures { result ≡ nr_plan_of plan.now.graph plan.now.b (numbers plan.now) }
    {
        NrPlan {
            graph: graph_number(plan.graph),
            b: plan.b,
            l: plan.l,
            c: plan.c,
            kdash: plan.kdash,
            kb: plan.kb,
            z: plan.z,
            set: plan.set,
            k: plan.k,
            n: plan.n,
            reserved: [0; 2],
        }
    }
}

/// Computes the segmentation parameters of a transport block (TS 38.212, 5.2.2). `nr_c` exports this call and says what
/// each status means.
pub fn nr_plan(rate2048: u32, a: u32, out: &mut NrPlan) -> u32
    ensures { Returns no_memory result out.old out.new HasValue (plan_said rate2048 a) }
{
    match plan_on(rate2048, a) {
        Ok(plan) => {
            *out = NrPlan::of(&plan);
            0
        }
        Err(fault) => fault.status(),
    }
}

// The plan, or the first cause against it.
#[tactic(auto, unfolding(crate::specs::Plan::planned_said))]
pub(crate) fn plan_on(rate2048: u32, a: u32) -> Result<Plan, Fault>
    ensures said { MatchResult result (λ plan. planned_said rate2048 a ≡ Ok (planned_of plan))
        (λ fault. planned_said rate2048 a ≡ Err fault) }
    ensures whole { IfOk result (λ plan. plan.b ≡ attached_length a) }
{
    if a % 8 != 0 || !(8..=MOST_BITS).contains(&a) {
        return Err(Fault::Desk(DeskFault::Size));
    }
    let graph = match pick(a, rate2048) {
        Ok(graph) => graph,
        Err(fault) => return Err(Fault::Desk(DeskFault::Pick(fault))),
    };
    match plan(graph, attached_len(a)) {
        Ok(plan) => Ok(plan),
        Err(fault) => Err(Fault::Desk(DeskFault::Seg(fault))),
    }
}
