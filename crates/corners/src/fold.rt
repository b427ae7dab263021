ghost use Rattle.std.specs.Prelude.{◌≡◌, ◌<◌, ◌++◌, ◌∷◌, [], List, IfOk, length};
ghost use Rattle.corners.specs.Vocabulary.{Constraint, AreWithin, IsCombined, IsIncludedAt, AreNamedAt};

use cts_base::{Listed, NoMemory};
use cts_model::Constraint;
use std::alloc::Global;

/// What several lists of constraints ask together.
#[derive(Debug, Drop)]
pub struct Combined {
    /// At each place the constraint with the greatest weight of the lists.
    pub constraints: Listed<Constraint>,
    /// For each of them the first list, from 0, that has it.
    pub corner: Listed<u32>,
}

impl Combined {
    /// The list of the first corner alone. It takes memory for a number for each constraint.
    pub(crate) fn first(alloc: Global, list: Listed<Constraint>) -> Result<Combined, NoMemory>
        ensures { IfOk result (IsCombined (list ∷ [])) }
    {
        let corner = Listed::from_vec(vec![in alloc; 0u32; list.len()]?);
        Ok(Combined {
            constraints: list,
            corner,
        })
    }

    /// Includes the list of the next corner. It takes no memory.
    pub(crate) fn include(&mut self, corner: u32, list: &[Constraint])
        requires constraints { length self.old.constraints ≡ length list.now }
        requires corners { length self.old.corner ≡ length list.now }
        ensures { (lists : List (List Constraint)) → length lists ≡ corner
            → IsCombined lists self.old → IsCombined (lists ++ list.now ∷ []) self.new }
    {
        for place in 0..list.len() {
            self.include_at(corner, place, list[place]);
        }
    }

    // Puts the next constraint in its place where it asks for more than the one there.
    fn include_at(&mut self, corner: u32, place: usize, next: Constraint)
        requires constraints { place < length self.old.constraints }
        requires corners { place < length self.old.corner }
        ensures { IsIncludedAt next corner place self.old self.new }
    {
        if next.weight > self.constraints.as_slice()[place].weight {
            self.constraints.set(place, next);
            self.corner.set(place, corner);
        }
    }

    /// The constraints at some places, with their corners. It takes memory for them.
    pub(crate) fn at(&self, alloc: Global, places: &[u32]) -> Result<Combined, NoMemory>
        requires corners { length self.now.corner ≡ length self.now.constraints }
        requires within { AreWithin self.now.constraints places.now }
        ensures { IfOk result (AreNamedAt self.now places.now) }
    {
        let mut constraints = Listed::new(alloc);
        let mut corner = Listed::new(alloc);
        for place in places {
            constraints.push(self.constraints.as_slice()[*place as usize])?;
            corner.push(self.corner.as_slice()[*place as usize])?;
        }
        Ok(Combined {
            constraints,
            corner,
        })
    }
}
