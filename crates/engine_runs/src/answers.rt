// The answer of an engine, vertex by vertex, and as a list.
ghost use Rattle.std.specs.Prelude.{◌≡◌, IfOk};
ghost use Rattle.run_model.specs.Rows.{answer};

use bolt_base::{Answer, Lanes, Memory};
use round_engine::Engine;
use std::alloc::Global;
use vertex_steps::ValueRow;

/// The answer on an engine's graph.
#[derive(Clone, Copy)]
pub struct EngineAnswer<'a> {
    /// The engine.
    pub engine: &'a Engine,
}

impl<'a> ValueRow for EngineAnswer<'a> {
    ghost use Rattle.run_model.specs.Rows.{answer};

    ghost values = { λ row. answer row.engine.now.program row.engine.now.now };

    fn value(&self, v: u32) -> Lanes {
        let lanes = self.engine.accepted().program().entries().ranges.len() as u32;
        let mut value = Lanes::zeros(lanes);
        for lane in 0..lanes {
            value.set(lane, self.engine.value(v, lane));
        }
        value
    }
}

/// The answer of an engine as a list, a value for each vertex.
pub fn answer_of(alloc: Global, engine: &Engine) -> Result<Answer, Memory>
    ensures { let e = engine.now in IfOk result (λ values. values ≡ answer e.program e.now) }
{
    let row = EngineAnswer { engine };
    let mut values = Answer::new(alloc);
    for v in 0..engine.vertices() {
        values.push(row.value(v))?;
    }
    Ok(values)
}
