// The turn of a node at the end of a round.
ghost use Rattle.std.specs.Prelude.{◌≡◌, ◌==◌, ◌≤◌, ℕ, List};
ghost use Rattle.std.specs.List.{list_any};
ghost use Rattle.schedule_generate.specs.Course.{Course, with_turn};
ghost use Rattle.schedule_generate.specs.Goes.{At, IsAt, Went};
ghost use Rattle.schedule_generate.specs.Settings.{generated_config, most_generated_nodes};

use crate::course_halt::CourseHalt;
use crate::course_observer::CourseObserver;
use crate::generator::Generator;
use crate::moves::Move;
use rand_core::utils::NextWord;
use ring_points::Who;

/// Whether the clock of this node is among these.
fn is_among(clocks: &[(Who, u64)], node: u16) -> bool
    ensures { result ≡ list_any (λ clock. clock.0.actor == node) clocks.now }
{
    clocks.iter().any(|clock| clock.0.actor == node)
}

impl Generator {
    /// A draw decides whether a node is stopped or started, and which: one that runs is stopped, and one that does not
    /// is started, its clock showing the true time.
    pub fn turn<L: CourseObserver>(
        &mut self,
        listener: &mut L,
        text: &mut Vec<u8>,
    ) -> Result<(), CourseHalt>
        requires at { IsAt L.writing (L.knows listener.old) self.old text.old.items }
        requires some { 1 ≤ self.old.nodes }
        requires few { self.old.nodes ≤ most_generated_nodes }
        ensures went { (g : Course) (sent : List ℕ) →
            At L.writing (L.knows listener.old) self.old.nodes self.old text.old.items g sent →
            Went L.writing (L.knows listener.new) self.old.nodes result self.new text.new.items
            (with_turn (generated_config self.old.nodes) self.old.nodes g) sent }
        ensures still { self.new.time ≡ self.old.time }
        ensures nodes { self.new.nodes ≡ self.old.nodes }
    {
        let draw = self.draws.next_word();
        if draw % 50 != 0 {
            return Ok(());
        }
        let node = (draw / 64 % u32::from(self.nodes)) as u16 + 1;
        if is_among(self.world.clocks(), node) {
            return self.take(Move::Stop(node), listener, text);
        }
        self.take(Move::Start(node, Some(self.time)), listener, text)
    }
}
