// Lines of the commands on files, as they are parsed, completed and helped.
use crate::case::try_cases;
use std::test::Fail;

const PARSES_EACH_LINE_AS_IT_STANDS: &str = "keys DIR {DEL}
screen @DIR {RUB}{EOL}
log ..{LF}20 4 O 0.1k7@0-3{LF}7f 3 O{LF}

keys copy (fr) TTY
screen @copy (fr) TTY{EOL}
log ..{LF}59 13 O 0.1k4@0-4 1.0n1@5-9{LF}

keys copy (fr) TTYX{SP}
screen @copy (fr) TTYX {EOL}
log ..{LF}58 14 O 0.1k4@0-4 1.0n1@5-9{LF}20 15 F23.2@10 0.1k4@0-4 1.0n1@5-9{LF}

keys copy (fr) TTY:
screen @copy (fr) TTY:{EOL}
log ..{LF}3a 14 O 0.1k4@0-4 1.0n1@5-9 2.0t@10-14{LF}

keys COPY (TO) A{CR}
screen @COPY (TO) A{EOL}?Guide word does not match{EOL}@{EOL}
log ..{LF}0d 11 F5.1@5 0.1k4@0-4{LF}

keys COPY ?
screen @COPY ? guide word (FROM){EOL} or \"TTY:\"{EOL} or input file{EOL}@COPY {EOL}
log ..{LF}3f 5 O 0.1k4@0-4{LF}

keys DIR{ESC}{ESC}
screen @DIRECTORY (OF FILES) *.*.* {EOL}
log ..{LF}1b 27 O 0.1k7@0-9 23.0n1@10-20 24.1f@21-26{LF}";

#[test]
fn parses_each_line_as_it_stands(rt: HostRuntime) -> Result<(), Fail> {
    try_cases(&rt, PARSES_EACH_LINE_AS_IT_STANDS)
}

const A_COMPLETION_FITS_A_LINE_OR_NOT: &str = "keys {231* }EXPU{ESC}
screen @{231* }EXPUNGE (DELETED FILES) {EOL}
log ..{LF}1b 255 O 0.1k8@231-238 35.0n1@239-254{LF}

keys {232* }EXPU{ESC}
screen @{232* }EXPU{BEL}{EOL}
log ..{LF}1b 236 O{LF}";

#[test]
fn a_completion_fits_a_line_or_not(rt: HostRuntime) -> Result<(), Fail> {
    try_cases(&rt, A_COMPLETION_FITS_A_LINE_OR_NOT)
}
