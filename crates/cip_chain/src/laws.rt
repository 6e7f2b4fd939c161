//! What holds of the answers of `chain`.
ghost use Rattle.std.specs.Prelude.{ℕ};
ghost use Rattle.cip_chassis.specs.Plan.{Plan};
ghost use Rattle.cip_world.specs.Journals.{Journal};
ghost use Rattle.cip_world.specs.Runs.{IsRun};
ghost use Rattle.cip_chain.specs.Answers.{IsView, IsBroken};
ghost use Rattle.cip_chain.specs.Found.{IsNotOpen};
ghost use Rattle.cip_chain.specs.declared.chains.ChainView.{ChainView as View};

/// A chain, not open and broken exclude one another: so `chain` answers each exactly where it
/// holds, NoMemory aside.
pub fn answers_exclude_one_another()
    ensures open { (t : Plan) (j : Journal) (m op : ℕ) (view : View) → IsRun t j
        → IsView t j m op view → IsNotOpen t j m op → ⊥ }
    ensures whole { (t : Plan) (j : Journal) (m op b : ℕ) (view : View) → IsRun t j
        → IsView t j m op view → IsBroken t j m op b → ⊥ }
    ensures broken { (t : Plan) (j : Journal) (m op b : ℕ) → IsNotOpen t j m op
        → IsBroken t j m op b → ⊥ }
{}
