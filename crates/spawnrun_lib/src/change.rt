ghost use Rattle.std.specs.Prelude.{◌≡◌, ◌++◌, ◌∷◌, [], map, OnOk, OnErr};
ghost use Rattle.ent_queue.specs.Commands.{IsReady, Extends, output_of};
ghost use Rattle.ent_queue.specs.Issuing.{Issues};
ghost use Rattle.spawnrun_lib.specs.Parts.{names_of, command_on, HasIssuedOn};
ghost use Rattle.spawnrun_lib.specs.Parts.{HasStoppedAmong, HasStoppedOn};
ghost use Rattle.spawnrun_lib.specs.Rolls.{IsRollOf};

use crate::bindings::Bindings;
use crate::roll::Roll;
use ent_alloc::Source;
use ent_handle::{ComponentId, Handle, Memory};
use ent_queue::{CommandQueue, Commands};
use ent_script::{Bundle, Target};
use ent_world::View;

/// Up to this many handles get an insert each. To pack the bundle for each of so few takes less time
/// than to make a list of its bytes first.
const FEW: usize = 8;

/// What an operation does to each entity of its target.
#[derive(Clone, Copy)]
pub(crate) enum Change<'a> {
    /// Sets these components.
    Insert(&'a Bundle),
    /// Removes this component.
    Remove(ComponentId),
    /// Despawns the entity.
    Despawn,
}

impl Change<'_> {
    /// Issues the change for each handle of the target, in order.
    pub(crate) fn on_target<S: Source>(
        self,
        view: &View<'_>,
        target: Target,
        names: &Bindings,
        roll: &mut Roll,
        commands: &mut Commands<'_, CommandQueue, S>,
    ) -> Result<(), Memory>
        requires ready { IsReady S.serves commands.old }
        requires roll { IsRollOf view.now roll.old }
        ensures roll { IsRollOf view.now roll.new }
        ensures extends { Extends Issues S.serves S.may_reply commands.old commands.new }
        ensures issued { OnOk result (HasIssuedOn view.now (names_of names.now) target
            (command_on self.entry) (output_of commands.old) (output_of commands.new)) }
        ensures stopped { OnErr result (HasStoppedOn view.now (names_of names.now) target
            (command_on self.entry) (output_of commands.old) (output_of commands.new)) }
    {
        match target {
            Target::Name(name) => self.on_each(names.get(name), commands),
            Target::Handle(handle) => self.on_each(&[handle], commands),
            Target::Each(id) => self.on_each(&view.with(id)?, commands),
            Target::Birth(birth) => match roll.find(view, birth)? {
                Some(handle) => self.on_each(&[handle], commands),
                None => Ok(()),
            },
        }
    }

    /// Issues the change for each of the handles, in order.
    fn on_each<S: Source>(
        self,
        handles: &[Handle],
        commands: &mut Commands<'_, CommandQueue, S>,
    ) -> Result<(), Memory>
        requires { IsReady S.serves commands.old }
        ensures extends { Extends Issues S.serves S.may_reply commands.old commands.new }
        ensures ok { OnOk result (output_of commands.new
            ≡ output_of commands.old ++ map (command_on self.entry) handles.now) }
        ensures stopped { OnErr result (HasStoppedAmong handles.now (command_on self.entry)
            (output_of commands.old) (output_of commands.new)) }
    {
        match self {
            Change::Insert(bundle) if handles.len() > FEW => commands.insert_each(handles, bundle),
            _ => self.one_by_one(handles, commands),
        }
    }

    /// Issues the change for one handle after the other.
    fn one_by_one<S: Source>(
        self,
        handles: &[Handle],
        commands: &mut Commands<'_, CommandQueue, S>,
    ) -> Result<(), Memory>
        requires { IsReady S.serves commands.old }
        ensures extends { Extends Issues S.serves S.may_reply commands.old commands.new }
        ensures ok { OnOk result (output_of commands.new
            ≡ output_of commands.old ++ map (command_on self.entry) handles.now) }
        ensures stopped { OnErr result (HasStoppedAmong handles.now (command_on self.entry)
            (output_of commands.old) (output_of commands.new)) }
    {
        for handle in handles {
            self.on_one(*handle, commands)?;
        }
        Ok(())
    }

    /// Issues the change for one handle.
    fn on_one<S: Source>(
        self,
        handle: Handle,
        commands: &mut Commands<'_, CommandQueue, S>,
    ) -> Result<(), Memory>
        requires { IsReady S.serves commands.old }
        ensures extends { Extends Issues S.serves S.may_reply commands.old commands.new }
        ensures ok { OnOk result (output_of commands.new
            ≡ output_of commands.old ++ command_on self.entry handle ∷ []) }
        ensures err { OnErr result (output_of commands.new ≡ output_of commands.old) }
    {
        match self {
            Change::Insert(bundle) => commands.insert(handle, bundle),
            Change::Remove(id) => commands.remove(handle, id),
            Change::Despawn => commands.despawn(handle),
        }
    }
}
