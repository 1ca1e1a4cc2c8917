ghost use Rattle.std.specs.Prelude.{◌≡◌, IfOk};
ghost use Rattle.tk_make.specs.Making.{root_of, made_handles, made_seed, made_seeds, made_keys};

use std::alloc::Global;
use tk_handle::{Handle, fill};
use tk_script::{ClientSeeds, Handles, Keys};
use tk_shape::Memory;

/// The keys of each log and of each client, all from the number.
pub(crate) fn make_keys(alloc: Global, number: u64) -> Result<Keys, Memory>
    ensures { IfOk result (λ keys. keys ≡ made_keys number) }
{
    let root = root_of(number);
    let handles = make_handles(alloc, &root)?;
    let seeds = make_seeds(alloc, &root)?;
    Ok(Keys { handles, seeds })
}

/// The number after zeros, high byte first.
fn root_of(number: u64) -> [u8; 32]
    ensures { result ≡ root_of number }
{
    let mut root = [0; 32];
    root[24..].copy_from_slice(&number.to_be_bytes());
    root
}

/// The handle of each log.
fn make_handles(alloc: Global, root: &[u8; 32]) -> Result<Handles, Memory>
    ensures { IfOk result (λ handles. handles ≡ made_handles root.now) }
{
    let mut handles = Vec::new(alloc);
    for log in 0..4u32 {
        handles.push(Handle::from_root(u64::from(log), root))?;
    }
    Ok(Handles::from_vec(handles))
}

/// The seed of each client.
fn make_seeds(alloc: Global, root: &[u8; 32]) -> Result<ClientSeeds, Memory>
    ensures { IfOk result (λ seeds. seeds ≡ made_seeds root.now) }
{
    let mut seeds = Vec::new(alloc);
    for client in 0..12 {
        seeds.push(seed_of(root, client))?;
    }
    Ok(ClientSeeds::from_vec(seeds))
}

/// The seed of a client: the front of a stream of its own, after those of the handles.
fn seed_of(root: &[u8; 32], client: u32) -> [u8; 32]
    ensures { result ≡ made_seed root.now client }
{
    let mut seed = [0; 32];
    fill(root, 4294967296 + u64::from(client), 0, &mut seed);
    seed
}
