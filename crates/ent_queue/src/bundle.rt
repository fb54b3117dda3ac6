/// Components and their values, in strictly ascending order of number.
///
/// A bundle of up to four components needs no allocation.
///
/// ```
/// use forgeni::{run_frame, system, Bundle, ComponentId, StdThreads, World};
///
/// const MASS: ComponentId = ComponentId(0);
///
/// // What each ball has, made once. A spawn copies it.
/// let ball = Bundle::of(&[(MASS, 3)])?;
/// let throw = system(|_, commands| match commands.spawn_many(10, &ball) {
///     Ok(_) => Ok(()),
///     Err(refused) => refused.or_memory(),
/// });
/// let mut world = World::new();
/// run_frame(&StdThreads, &mut world, &[throw], 1)?;
/// assert_eq!(world.len(), 10);
/// # Ok::<(), Box<dyn std::error::Error>>(())
/// ```
pub type Bundle = ent_storage::Bundle<4>;
