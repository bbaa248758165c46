//! Lines read and answers written, by example.
#![tactic(auto)]

#[cfg(test)]
mod tests {
    use drawing::fault::{Cause, Fault};
    use label::measures::Measures;
    use laying::misfit::{Flaw, Misfit};
    use lines::kind::KindName;
    use lines::line::Line;
    use lines::reading::read_line;
    use replies::advice::Advice;
    use replies::answer::Answer;
    use replies::laid::{LayAnswer, Unpaired};
    use replies::measured::LabelAnswer;
    use replies::remedy::Remedy;
    use std::test::Fail;

    #[test]
    fn reads_a_point(rt: HostRuntime) -> Result<(), Fail> {
        match read_line(b"p 10\t-20 +30\r\n") {
            Ok(Line::Point(point)) => {
                assert!(rt; point.x == 10 && point.y == -20 && point.z == 30);
                Ok(())
            },
            _ => Err(Fail::new("no point")),
        }
    }

    #[test]
    fn reads_a_laying(rt: HostRuntime) -> Result<(), Fail> {
        match (
            read_line(b"i 18446744073709551615"),
            read_line(b"lay both\n"),
        ) {
            (Ok(Line::Image(image)), Ok(Line::Lay(KindName::Both))) => {
                assert!(rt; image == usize::MAX);
                Ok(())
            },
            _ => Err(Fail::new("no image, or no laying")),
        }
    }

    #[test]
    fn says_which_kinds_there_are(rt: HostRuntime) -> Result<(), Fail> {
        match read_line(b"lay measures") {
            Err(malformed) => {
                assert_eq!(rt;
                    format!(in rt.alloc(); "{malformed}")?.as_str(),
                    "expected lay KIND with KIND measure, mark or both"
                );
                Ok(())
            },
            Ok(_) => Err(Fail::new("a laying under no kind was read")),
        }
    }

    #[test]
    fn writes_a_label(rt: HostRuntime) -> Result<(), Fail> {
        let answer = LabelAnswer {
            edge: 10,
            measures: Ok(Measures {
                ee: 500,
                eb: -400,
                eb2: -100,
                ec: 100,
                bc: 0,
                volume: -6000,
            }),
        };
        assert_eq!(rt;
            format!(in rt.alloc(); "{answer}")?.as_str(),
            "label 0 10 500 -400 -100 100 0 -6000"
        );
        Ok(())
    }

    #[test]
    fn writes_a_misfit(rt: HostRuntime) -> Result<(), Fail> {
        let misfit = Misfit {
            cause: Flaw::Twice,
            place: 4,
        };
        let answer = LayAnswer {
            kind: KindName::Mark,
            paired: Err(Unpaired::Misfit(misfit)),
        };
        let remedy = Remedy(misfit);
        assert_eq!(rt;
            format!(in rt.alloc(); "{answer}: {remedy}")?.as_str(),
            "lay 0 no mark twice 4: edge 4 has the image of an earlier edge; give it one of its own"
        );
        Ok(())
    }

    #[test]
    fn says_what_was_expected(rt: HostRuntime) -> Result<(), Fail> {
        match read_line(b"check it") {
            Err(malformed) => {
                assert_eq!(rt;
                    format!(in rt.alloc(); "{malformed}")?.as_str(),
                    "expected check with nothing after it"
                );
                Ok(())
            },
            Ok(_) => Err(Fail::new("a check with a field was read")),
        }
    }

    #[test]
    fn writes_a_refusal(rt: HostRuntime) -> Result<(), Fail> {
        let fault = Fault {
            cause: Cause::LoosePoint,
            place: 3,
        };
        let answer = Answer(Err(fault));
        let advice = Advice(fault);
        assert_eq!(rt;
            format!(in rt.alloc(); "{answer}: {advice}")?.as_str(),
            "check 5 3: no corner names it; let a face use it, or leave it out"
        );
        Ok(())
    }
}
