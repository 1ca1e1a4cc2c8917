//! What holds of all that the top call does.
ghost use Rattle.tk_cli.specs.Completeness.{Completes};
ghost use Rattle.tk_cli.specs.PassingOver.{SerialRunsPassOverHonestly};

use tk_report::honest_passing_over;
use tk_script::one_input;

/// A number that the report of a serial run tells as absent was rightly passed over: its record, if
/// there is one, wasn't retained in the epoch from which the reader got the next number that it did
/// get. That takes reading ahead by two numbers or more.
pub fn honest_serial_runs()
    ensures { SerialRunsPassOverHonestly }
{
    honest_passing_over();
}

/// A form whose input nothing refuses, and for which no object fails, ends with Done or Memory.
pub fn completeness()
    ensures { Completes }
{
    one_input();
}
