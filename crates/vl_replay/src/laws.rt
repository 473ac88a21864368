// What the definitions together say. Each law is a function that does nothing.
ghost use Rattle.std.specs.Prelude.{◌≡◌, ◌<◌, List, ℕ, ℤ};
ghost use Rattle.vl_ast.specs.declared.modules.Module.{Module};
ghost use Rattle.vl_ast.specs.Conditions.{BreaksNone};
ghost use Rattle.vl_ast.specs.Windows.{PortNumbers, Sample};
ghost use Rattle.vl_replay.specs.Sampled.{HasTable, Sampled};

use vl_ast::one_run;

/// Of a module that breaks no condition no two tables are sampled under one stimulus.
pub fn one_response()
    ensures { (m : Module) (stimulus : PortNumbers) (samples : ℕ) (one other : Sample → List ℤ)
        → BreaksNone m → Sampled m stimulus samples one → Sampled m stimulus samples other
        → (t : Sample) → t < samples → one t ≡ other t }
{
    one_run();
}

/// Of a module that breaks no condition some table is sampled under every stimulus.
pub fn some_response()
    ensures { (m : Module) (stimulus : PortNumbers) (samples : ℕ) → BreaksNone m
        → HasTable m stimulus samples }
{
    one_run();
}
