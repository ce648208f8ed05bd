// What is answered where the file OUT can't be written.
ghost use Rattle.std.specs.Prelude.{◌≡◌};
ghost use Rattle.command_stages.specs.Stages as stages;

use command_words::Status;
use outer_io::StoreFault;

/// What is answered where a call that writes the file OUT fails.
pub fn write_status(fault: StoreFault) -> Status
    ensures { result ≡ stages.write_status fault }
{
    match fault {
        StoreFault::Memory => Status::Memory,
        StoreFault::Failed | StoreFault::Missing => Status::WriteFault,
    }
}
